// The cases of pitch and of shaping: pulses, and a parabola that comes back every 85 samples.
ghost use Rattle.std.specs.Prelude.{◌<◌, ◌≤◌};

use float::status::Refusal;
use pitch::HnsParams;
use std::array;

// 1000 and 500 side by side, a period apart, over silence.
fn pulses(period: usize) -> [f32; 385]
    requires { 2 ≤ period }
{
    array::from_fn(|k| match k % period {
        0 => 1000.0,
        1 => 500.0,
        _ => 0.0,
    })
}

// What a half of the first `count` samples is answered.
pub fn half(limit: u32, period: usize, count: usize, half: usize) -> Result<u32, Refusal>
    requires { (2 ≤ period) × (count ≤ 385) }
{
    pitch::open_loop_pitch(limit, &pulses(period)[..count], half)
}

// The lag of a half up to 142, and up to 82 without the first 60 samples.
pub fn with_less_history(period: usize, half: usize, lag: u32, lag_of_less: u32) -> bool
    requires { 2 ≤ period }
{
    let wbuf = pulses(period);
    let long = pitch::open_loop_pitch(142, &wbuf, half);
    let short = pitch::open_loop_pitch(82, &wbuf[60..], half);
    (long == Ok(lag)) & (short == Ok(lag_of_less))
}

// Everything is wrong with it, and the limit is looked at first.
pub fn other_limit() -> bool {
    pitch::open_loop_pitch(83, &[f32::NAN; 3], 5) == Err(Refusal::Choice)
}

// 5k² modulo 301, around 0.
fn parabola(k: usize) -> f32
    requires { k < 85 }
{
    f32::from((5 * k * k % 301) as u16) - 150.0
}

// The same every 85 samples.
fn waves() -> [f32; 145] {
    array::from_fn(|k| parabola(k % 85))
}

// The lag of the wave lies three above the limit.
pub fn three_above() -> bool {
    let answer = pitch::harmonic_noise_shaping(82, &waves(), 85, 82);
    answer.is_ok_and(|it| (it.lag == 85) & float::same_bits(it.beta, 0x3ea0_0000))
}

pub fn shaping_refused(limit: u32, place: usize, l: u32, refusal: Refusal) -> bool {
    pitch::harmonic_noise_shaping(limit, &waves(), place, l) == Err(refusal)
}

// Around lag 41 the same settings up to 142, and up to 82 without the first 60 samples; lag 83 is refused there.
pub fn shaped_with_less_history() -> bool {
    let wbuf = pulses(41);
    let long = pitch::harmonic_noise_shaping(142, &wbuf, 145, 41);
    let short = pitch::harmonic_noise_shaping(82, &wbuf[60..], 85, 41);
    let above = pitch::harmonic_noise_shaping(142, &wbuf, 145, 83);
    let refused = pitch::harmonic_noise_shaping(82, &wbuf[60..], 85, 83);
    let same = match (long, short) {
        (Ok(a), Ok(b)) => { (a.lag == 41) & (b.lag == 41) & (a.beta == b.beta) & (0.0 < a.beta) }
        _ => false,
    };
    same & above.is_ok() & (refused == Err(Refusal::Lag))
}

// The lag of pulses 100 apart, shaped up to 142 around that lag.
pub fn shaped_100() -> Option<u32> {
    let answer = pitch::harmonic_noise_shaping(142, &pulses(100), 145, 100);
    answer.ok().map(|it| it.lag)
}
