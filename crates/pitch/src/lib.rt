// Open-loop pitch (§2.9) and the settings of harmonic noise shaping (§2.11), over the weighted speech: history, then the frame.
// The caller's limit stands first: its lags end there, and reach = limit + 3 samples of history stand before what is looked at (request E6).
#![tactic(auto)]

ghost use Rattle.std.specs.Prelude.{◌≡◌, suc, ◌+◌, ◌≤◌, Some};
ghost use Rattle.float.specs.Answered.{status_of};
ghost use Rattle.float.specs.Refusal.{first};
ghost use Rattle.lag_limit.specs.Limit.{reach};
ghost use Rattle.lag_limit.specs.Choice.{lags_of};
ghost use Rattle.lags.specs.Search.{as_best, winner, preferred};
ghost use Rattle.pitch.specs.Gate.{passes};
ghost use Rattle.pitch.specs.Pitch.{as_pitch, start, pitch_refusals, open_loop_pitch};
ghost use Rattle.pitch.specs.inner.Readable.{Half, Subframe};
ghost use Rattle.pitch.specs.Shaping.{as_shaping, shaping_off, factor, settled, settings, shaping_refusals, harmonic_noise_shaping};

use float::status::Refusal;
use lag_limit::LagLimit;
use lags::{Best, Widened};

// Settings of the harmonic noise shaping filter 1 − beta·z^−lag.
#[derive(Clone, Copy, Debug, PartialEq)]
pub struct HnsParams {
    pub lag: u32,
    pub beta: f32,
}

impl HnsParams {
    // Shaping switched off.
    pub fn off() -> Self
        ensures { result ≡ shaping_off }
    {
        Self { lag: 18, beta: 0.0 }
    }
}

// 2 if half > 1; 1 if shorter than what is read; 5 for any sample before the half's end.
fn check_half(limit: LagLimit, wbuf: &[f32], half: usize) -> Result<(), Refusal>
    ensures { status_of result ≡ first (pitch_refusals (lags_of limit) wbuf.now half) }
{
    if half > 1 {
        return Err(Refusal::Choice);
    }
    let end = limit.reach() + 120 * half + 120;
    if wbuf.len() < end {
        return Err(Refusal::Length);
    }
    float::check_finite(&wbuf[..end])
}

// The lag of a half that the check has passed.
fn search_half(limit: LagLimit, wbuf: &[f32], half: usize) -> u32
    requires { Half (lags_of limit) wbuf.now half }
    ensures { result ≡ (winner preferred wbuf.now (start (lags_of limit) half) 120 18 (suc (lags_of limit))).lag }
{
    let reach = limit.reach();
    let o = reach + 120 * half;
    let mut speech = Widened::zeros();
    speech.widen(&wbuf[o - reach..o + 120]);
    speech.open_loop_lag(limit.lags())
}

// The open-loop lag of half 0 or 1 of the frame that follows its history.
#[tactic(auto, using(float::proofs::Refusal::exits, lag_limit::proofs::Known::choices, crate::proofs::Shown::shown), unfolding(crate::specs::Pitch::open_loop_pitch))]
pub fn open_loop_pitch(limit: u32, wbuf: &[f32], half: usize) -> Result<u32, Refusal>
    ensures { as_pitch result ≡ open_loop_pitch limit wbuf.now half }
{
    // before anything else is looked at
    let limit = LagLimit::try_from(limit)?;
    check_half(limit, wbuf, half)?;
    Ok(search_half(limit, wbuf, half))
}

// ---- harmonic noise shaping

// The filter takes away at least 2 dB: 10 t^5 is at most 1 for t = 1 − min(1, c / e). The quotient is the largest double t that passes.
pub fn gate(c: f64, e: f64) -> bool
    ensures { result ≡ passes c e }
{
    let t = 1.0 - (c / e).min(1.0);
    t <= 5683158522975351.0 / 9007199254740992.0
}

// A NaN stays one.
fn beta_of(gain: f64) -> f32
    ensures { result ≡ factor gain }
{
    0.3125 * float::narrow(gain.clamp(0.0, 1.0))
}

// No energy or a failed gate: off.
fn settle(best: Best, e: f64, gain: f64) -> HnsParams
    ensures { result ≡ settled (as_best (Some best)) e gain }
{
    if e <= 0.0 || !gate(best.ratio, e) {
        return HnsParams::off();
    }
    HnsParams {
        lag: best.lag,
        beta: beta_of(gain),
    }
}

// The settings for the 60 samples from o on; off where no lag counts. Lags l − 3 .. l + 3 lie nearer than 18 to each other, so the open-loop
// search finds the first greatest.
pub fn shaping_in(speech: &Widened, o: usize, limit: u32, l: u32) -> HnsParams
    requires history { limit + 3 ≤ o }
    requires within { o + 60 ≤ 265 }
    requires highest { limit ≤ 142 }
    requires low { 18 ≤ l }
    requires high { l ≤ limit }
    ensures { result ≡ settings limit speech.now.samples o l }
{
    let e = speech.energy(o, 60);
    let first = l - 4;
    let sums = speech.eight_lags(o, 60, first as usize);
    let Some(best) = lags::compete(None, &sums, first, (l - 3).max(18), l + 4) else {
        return HnsParams::off();
    };
    let i = (l + 3 - best.lag) as usize;
    settle(best, e, sums.cross[i] / sums.power[i])
}

// 4 for a lag outside 18..limit; 3 for a place with too few samples before or after it; 5 for any sample that is read.
fn check_shaping(limit: LagLimit, wbuf: &[f32], place: usize, l_ol: u32) -> Result<(), Refusal>
    ensures { status_of result ≡ first (shaping_refusals (lags_of limit) wbuf.now place l_ol) }
{
    if l_ol < 18 || limit.lags() < l_ol {
        return Err(Refusal::Lag);
    }
    let reach = limit.reach();
    // place + 60 could wrap
    if place < reach || wbuf.len() < place || wbuf.len() - place < 60 {
        return Err(Refusal::Place);
    }
    float::check_finite(&wbuf[place - reach..place + 60])
}

// The settings at a place that the check has passed.
fn shaping_at(limit: LagLimit, wbuf: &[f32], place: usize, l_ol: u32) -> HnsParams
    requires { Subframe (lags_of limit) wbuf.now place l_ol }
    ensures { result ≡ settings (lags_of limit) wbuf.now place l_ol }
{
    let reach = limit.reach();
    let mut speech = Widened::zeros();
    speech.widen(&wbuf[place - reach..place + 60]);
    shaping_in(&speech, reach, limit.lags(), l_ol)
}

// The settings of the subframe of 60 samples at place, with its history before it, around the open-loop lag.
#[tactic(auto, using(float::proofs::Refusal::exits, lag_limit::proofs::Known::choices, crate::proofs::Shown::shown), unfolding(crate::specs::Shaping::harmonic_noise_shaping))]
pub fn harmonic_noise_shaping(
    limit: u32,
    wbuf: &[f32],
    place: usize,
    l_ol: u32,
) -> Result<HnsParams, Refusal>
    ensures { as_shaping result ≡ harmonic_noise_shaping limit wbuf.now place l_ol }
{
    let limit = LagLimit::try_from(limit)?;
    check_shaping(limit, wbuf, place, l_ol)?;
    Ok(shaping_at(limit, wbuf, place, l_ol))
}
