// A single and its bit pattern, for patterns of NaNs too.
ghost use Rattle.std.specs.Prelude.{◌≡◌};
ghost use Rattle.std.specs.Float.{binary32};
ghost use Rattle.std.specs.Float.Ieee.{nan_bits, of_bits};
ghost use Rattle.float.specs.Pattern.{same_pattern};

// Without its sign, a NaN's pattern is above infinity's.
fn nan_pattern(w: u32) -> bool
    ensures { result ≡ nan_bits binary32 w }
{
    w % 0x8000_0000 > 0x7f80_0000
}

// The single with the pattern w. `f32::from_bits` leaves out the patterns of NaNs.
pub fn of_bits(w: u32) -> f32
    ensures { result ≡ of_bits binary32 w }
{
    std::num::f32_from_bits_with_nan(w)
}

// x has the pattern w, or both are NaNs.
pub fn same_bits(x: f32, w: u32) -> bool
    ensures { result ≡ same_pattern binary32 x w }
{
    if x.is_nan() {
        return nan_pattern(w);
    }
    x.to_bits() == w
}
