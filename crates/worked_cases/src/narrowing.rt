// Doubles narrowed to singles, at the edges of what a single holds.

fn becomes(x: f64, w: u32) -> bool {
    float::same_bits(float::narrow(x), w)
}

// A NaN is no infinity, whose pattern is one below the first of a NaN.
pub fn keeps_nan() -> bool {
    becomes(f64::NAN, 0x7fc0_0000)
}

pub fn keeps_infinity() -> bool {
    becomes(f64::INFINITY, 0x7f80_0000)
}

// 2^128, and halfway from the greatest single to it, which is a tie; the double before that tie is the greatest single.
pub fn overflows() -> bool {
    becomes(340282366920938463463374607431768211456.0, 0x7f80_0000)
        && becomes(340282356779733661637539395458142568448.0, 0x7f80_0000)
        && becomes(340282356779733623858607532500980858880.0, 0x7f7f_ffff)
}

// 1 + 1/2^24 lies halfway between 1 and the next single, 1 + 3/2^24 between that one and the next but one.
pub fn ties_to_even() -> bool {
    becomes(1.000000059604644775390625, 0x3f80_0000)
        && becomes(1.000000178813934326171875, 0x3f80_0002)
}

// 2^-149 is the smallest single; half of it is a tie, which goes to 0, and three quarters of it come back to it.
pub fn keeps_subnormals() -> bool {
    let unit = 1.0 / 713623846352979940529142984724747568191373312.0;
    becomes(unit, 1) && becomes(unit / 2.0, 0) && becomes(unit * 0.75, 1)
}

pub fn keeps_minus_zero() -> bool {
    becomes(-0.0, 0x8000_0000)
}
