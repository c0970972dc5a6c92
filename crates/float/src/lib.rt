// Tests of singles that the refusals stand on, and the rounding of a double to single.
#![tactic(auto)]

mod bits;
pub mod status;

ghost use Rattle.std.specs.Prelude.{◌≡◌, [], ◌∷◌, ◌^◌, ◌≤◌, ◌<◌, map};
ghost use Rattle.std.specs.Float.{binary32, binary64};
ghost use Rattle.std.specs.Float.Ieee.{of_bits, to_bits};
ghost use Rattle.std.specs.Float.Ieee.Scale.{finite};
ghost use Rattle.float.specs.Refusal.{all, any, first};
ghost use Rattle.float.specs.Finite.{not_finite, exceeds, any_exceeds};
ghost use Rattle.float.specs.Answered.{status_of};
ghost use Rattle.float.specs.inner.HalfEven.{half_even};
ghost use Rattle.float.specs.Narrow.{narrow};

pub use bits::{of_bits, same_bits};
use status::Refusal;

// Neither infinite nor a NaN.
pub fn is_finite(x: f32) -> bool
    ensures { result ≡ finite x }
{
    x.is_finite()
}

// Every element is finite. All are tested, with no early end, so that several are tested at once.
pub fn all_finite(s: &[f32]) -> bool
    ensures { result ≡ all finite s.now }
{
    let mut passed = true;
    for x in s {
        passed &= is_finite(*x);
    }
    passed
}

// Above the bound, or below its negative.
pub fn exceeds_bound(x: f32, bound: f32) -> bool
    ensures { result ≡ exceeds bound x }
{
    (bound < x) | (x < -bound)
}

// Some element exceeds the bound in magnitude.
pub fn any_exceeds(s: &[f32], bound: f32) -> bool
    ensures { result ≡ any (exceeds bound) s.now }
{
    s.iter().any(|x| exceeds_bound(*x, bound))
}

// The two lists of refusals that most operations have: 5; 5, then 6 above a bound in magnitude.
pub fn check_finite(s: &[f32]) -> Result<(), Refusal>
    ensures { status_of result ≡ first ((5, not_finite s.now) ∷ []) }
{
    if !all_finite(s) {
        return Err(Refusal::NotFinite);
    }
    Ok(())
}

pub fn check_bounded(s: &[f32], bound: f32) -> Result<(), Refusal>
    ensures { status_of result ≡ first ((5, not_finite s.now) ∷ (6, any_exceeds bound s.now) ∷ []) }
{
    check_finite(s)?;
    if any_exceeds(s, bound) {
        return Err(Refusal::OutOfRange);
    }
    Ok(())
}

// The first of them for several lists at once.
pub fn check_lists(lists: &[&[f32]]) -> Result<(), Refusal>
    ensures { status_of result ≡ first ((5, any not_finite (map (λ list. list.now) lists.now)) ∷ []) }
{
    for list in lists {
        check_finite(list)?;
    }
    Ok(())
}

// d / 2^k to the nearest whole number, a tie to the even one.
pub fn half_even(d: u64, k: u64) -> u64
    requires { (1 ≤ k) × (k < 64) × (d < 2 ^ 63) }
    ensures { result ≡ half_even d k }
{
    (d + ((1 << (k - 1)) - 1) + (d >> k) % 2) >> k
}

// The pattern of the single nearest to a double with the pattern m and no sign.
fn narrow_magnitude(m: u64) -> u64
    requires { m ≤ 0x7ff0_0000_0000_0000 }
    ensures { (result ≡ to_bits binary32 (narrow (of_bits binary64 m))) × (result ≤ 0x7f80_0000) }
{
    // from 2^128 on: infinity
    if m >= 0x47f0_0000_0000_0000 {
        return 0x7f80_0000;
    }
    // from 2^-126 on: a normal single. Patterns rise with their values, so a carry goes into the
    // exponent's field, and past the largest single to infinity
    if m >= 0x3810_0000_0000_0000 {
        return half_even(m - 0x3800_0000_0000_0000, 29);
    }
    // from 2^-150 on: units of the smallest single, 2^-149
    if m >= 0x3690_0000_0000_0000 {
        return half_even((1 << 52) + m % (1 << 52), 926 - (m >> 52));
    }
    0
}

// Double to single: to nearest, ties to even. The library's `nearest_f64_to_f32_with_nan` says the same; it goes by 128 bits and takes 2.6
// times as long, and a conversion of ten lines narrows ten times (docs/BENCH.md).
pub fn narrow(x: f64) -> f32
    ensures { result ≡ narrow x }
{
    if x.is_nan() {
        return f32::NAN;
    }
    let bits = x.to_bits();
    let sign = bits >> 63;
    let magnitude = narrow_magnitude(bits % (1 << 63));
    f32::from_bits((sign * 0x8000_0000 + magnitude) as u32)
}
