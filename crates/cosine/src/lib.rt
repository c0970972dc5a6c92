// The cosine rule of document 01: whole numbers in the place of a C library's cosine and arc cosine.
#![tactic(auto)]

ghost use Rattle.std.specs.Prelude.{◌≡◌, ◌+◌, ◌^◌, ◌≤◌, true, false, pos};
ghost use Rattle.std.specs.Float.{fin};
ghost use Rattle.std.specs.Float.Ieee.{lt};
ghost use Rattle.float.specs.Finite.{power, exceeds};
ghost use Rattle.float.specs.Floor.{floor};
ghost use Rattle.cosine.specs.Cosine.{folded, cosine, cosine_single};
ghost use Rattle.cosine.specs.inner.Low.{low};
ghost use Rattle.cosine.specs.Step.{held, step, step_of_frequency, frequency};
ghost use Rattle.cosine.specs.inner.Search.{LowStep, whole_below};
ghost use Rattle.cosine.specs.Angle.{angle, step_of_angle};

// The step within half a circle that has the same cosine.
#[tactic(auto, unfolding(crate::specs::Cosine::folded))]
fn fold(k: u32) -> u32
    ensures value { result ≡ folded k }
    ensures inside { result ≤ 2 ^ 24 }
{
    let r = k % 33554432;
    if r <= 16777216 { r } else { 33554432 - r }
}

// The blend of two entries, up to the quarter circle.
#[tactic(auto, using(crate::proofs::Blend::blends))]
fn low_blend(k: u32) -> u64
    requires { k ≤ 2 ^ 23 }
    ensures value { result ≡ low k }
    ensures inside { result ≤ 2 ^ 42 }
{
    let i = (k / 4096) as usize;
    let s = u64::from(k % 4096);
    let a = u64::from(quarter::at(i)) * (4096 - s);
    if s == 0 {
        return a;
    }
    a + u64::from(quarter::at(i + 1)) * s
}

// The unnarrowed cosine of a step.
#[tactic(auto, using(crate::proofs::Written::cosine_code))]
pub fn cosine(k: u32) -> f64
    ensures { result ≡ cosine k }
{
    let f = fold(k);
    if f <= 8388608 {
        low_blend(f) as f64 / 4398046511104.0
    } else {
        -(low_blend(16777216 - f) as f64 / 4398046511104.0)
    }
}

// Held to -1..1; a NaN stays.
#[tactic(auto, using(crate::proofs::Held::held_code))]
pub fn hold(c: f32) -> f32
    ensures { result ≡ held c }
{
    c.clamp(-1.0, 1.0)
}

// The least step up to the quarter circle whose blend is no greater than n: between two entries the blend falls by their difference a step.
fn low_step(n: u64) -> u32
    ensures { LowStep n result }
{
    if 4398046511104 <= n {
        return 0;
    }
    let i = quarter::last_above(n / 4096);
    let a = u64::from(quarter::at(i));
    let b = u64::from(quarter::at(i + 1));
    let s = (a * 4096 - n - 1) / (a - b) + 1;
    (i as u64 * 4096 + s) as u32
}

// |x| × 2^46, rounded down.
#[tactic(auto, using(crate::proofs::Whole::cuts))]
fn whole_part(x: f32) -> u64
    requires { exceeds (power 16) x ≡ false }
    ensures { result ≡ floor (2 ^ 46) 1 x }
{
    let units = f64::from(x) * 70368744177664.0;
    std::num::saturating_f64_to_u64(units.abs())
}

// The greatest whole number below |x| × 2^46, for an x in -1..0 that is not 0.
#[tactic(auto, using(crate::proofs::Below::below_rules))]
fn whole_below(x: f32) -> u64
    requires within { exceeds (power 0) x ≡ false }
    requires below { lt x (fin false 0 (pos 0)) ≡ true }
    ensures { result ≡ whole_below 46 x }
{
    let n = whole_part(x);
    if -(n as f64) <= f64::from(x) * 70368744177664.0 {
        return n - 1;
    }
    n
}

// The least step whose unnarrowed cosine is no greater than c, held to -1..1. Above the quarter circle it mirrors the last step whose cosine reaches |c|.
#[tactic(auto, using(crate::proofs::Reach::step_rules))]
pub fn step(c: f32) -> u32
    ensures value { result ≡ step (held c) }
    ensures inside { result ≤ 2 ^ 24 }
{
    let x = hold(c);
    if x.is_nan() {
        return 16777216;
    }
    if x < 0.0 {
        return 16777217 - low_step(whole_below(x) / 16);
    }
    low_step(whole_part(x) / 16)
}

// The whole number of steps nearest to a frequency of up to 65,536 in magnitude, a half going to the even one. Where whole_part cuts
// anything off, the frequency is far below half a step.
#[tactic(auto, using(crate::proofs::Written::frequency_rules))]
pub fn step_of_frequency(f: f32) -> u32
    requires { exceeds (power 16) f ≡ false }
    ensures value { result ≡ step_of_frequency f }
    ensures inside { result ≤ 2 ^ 25 }
{
    float::half_even(whole_part(f), 37) as u32
}

// The whole number of steps nearest to an angle of up to 16 in magnitude, a half going to the even one. A step is 13176795 units of
// 2^-46, an odd number: halfway lies half a unit, which one single alone has, 6588397.5 units, and that goes to 0.
#[tactic(auto, using(crate::proofs::Written::angle_rules))]
pub fn step_of_angle(a: f32) -> u32
    requires { exceeds (power 4) a ≡ false }
    ensures { result ≡ step_of_angle a }
{
    ((whole_part(a) + 6588397) / 13176795) as u32
}

// The angle of a step, rounded once to single.
#[tactic(auto, using(crate::proofs::Written::angle_code))]
pub fn angle(k: u32) -> f32
    requires { k ≤ 2 ^ 24 }
    ensures { result ≡ angle k }
{
    float::narrow(f64::from(k) * 3.1415927410125732421875 / 16777216.0)
}

// A step as a frequency.
#[tactic(auto, using(crate::proofs::Written::frequency_code))]
pub fn frequency(k: u32) -> f32
    requires { k ≤ 2 ^ 24 }
    ensures { result ≡ frequency k }
{
    k as f32 / 512.0
}

// The cosine of a step, for single answers.
pub fn cosine_single(k: u32) -> f32
    ensures { result ≡ cosine_single k }
{
    float::narrow(cosine(k))
}
