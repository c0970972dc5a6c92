// The voice of a frame (request E2): its weighted speech, and the pitch and the noise shaping that are found in it.
#![tactic(auto)]

ghost use Rattle.std.specs.Prelude.{◌≡◌, drop};
ghost use Rattle.weighting.specs.Filter.{as_weighted};
ghost use Rattle.frame_parts.specs.Four.{four_of};
ghost use Rattle.frame_parts.specs.inner.Told.{Told};
ghost use Rattle.voice.specs.Weighting.{weighed, weighting};
ghost use Rattle.voice.specs.inner.Voice.{done_speech, done_voice, voice};

use float::status::Refusal;
use frame_pitch::Tone;
use pitch::HnsParams;
use weighting::Weighted;

// The weighted speech, 145 samples of the past and the frame's, and the filter's memories after it.
#[derive(Drop)]
struct Speech {
    speech: [f32; 385],
    x_mem: [f32; 10],
    f_mem: [f32; 10],
}

// Half of a frame's answer: what its voice gives.
#[derive(Drop)]
pub struct Voice {
    pub pitch: [u32; 2],
    pub shaping: [HnsParams; 4],
    pub x_mem: [f32; 10],
    pub f_mem: [f32; 10],
    pub weighted: [f32; 145],
}

// ---- weighting

// One subframe through the weighting filter of its window. The two memories stay apart, here and below: a coder, `weight_subframe` and its
// answer have them apart, so that one struct of both would be put together and taken apart at each.
#[tactic(auto, using(float::proofs::Refusal::exits, crate::proofs::Taps::parts), unfolding(crate::specs::Weighting::weighed))]
fn weigh(a: [f32; 11], y: &[f32], x_mem: [f32; 10], f_mem: [f32; 10]) -> Result<Weighted, Refusal>
    ensures { as_weighted x_mem f_mem result ≡ weighed a y.now x_mem f_mem }
{
    let taps = weighting::weighting_taps(a)?;
    weighting::weight_subframe(y, taps.wz, taps.wp, x_mem, f_mem)
}

// The four subframes, each after the memories that the one before it has left, stand after the past.
fn weigh_frame(
    mut x_mem: [f32; 10],
    mut f_mem: [f32; 10],
    past: &[f32; 145],
    windows: &[[f32; 11]; 4],
    x: &[f32; 360],
) -> Result<Speech, Refusal>
    ensures { Told (λ v. v.status) done_speech result (weighting x_mem f_mem past.now (four_of windows.now) x.now) }
{
    let mut speech = [0.0; 385];
    speech[..145].copy_from_slice(past);
    for (s, a) in windows.iter().enumerate() {
        let from = 60 + 60 * s;
        let y = weigh(*a, &x[from..from + 60], x_mem, f_mem)?;
        let to = 145 + 60 * s;
        speech[to..to + 60].copy_from_slice(&y.out);
        x_mem = y.x_mem;
        f_mem = y.f_mem;
    }
    Ok(Speech {
        speech,
        x_mem,
        f_mem,
    })
}

// ---- the three stages

// The last 145 samples of the weighted speech.
fn last_145(speech: &[f32; 385]) -> [f32; 145]
    ensures { result ≡ drop 240 speech.now }
{
    *speech.last_chunk().unwrap()
}

// The voice of a frame: weighting, pitch and shaping.
#[inline(never)]
#[tactic(auto, using(frame_parts::proofs::Told::tells), unfolding(crate::specs::inner::Voice::voice))]
pub fn voice_of(
    x_mem: [f32; 10],
    f_mem: [f32; 10],
    past: &[f32; 145],
    windows: &[[f32; 11]; 4],
    x: &[f32; 360],
) -> Result<Voice, Refusal>
    ensures { Told (λ v. v.status) done_voice result (voice x_mem f_mem past.now (four_of windows.now) x.now) }
{
    let Speech {
        speech,
        x_mem,
        f_mem,
    } = weigh_frame(x_mem, f_mem, past, windows, x)?;
    let Tone { lags, settings } = frame_pitch::tone_of(&speech)?;
    let weighted = last_145(&speech);
    Ok(Voice {
        pitch: lags,
        shaping: settings,
        x_mem,
        f_mem,
        weighted,
    })
}
