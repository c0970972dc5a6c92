// Pitch and noise shaping of a frame (request E2), over the weighted speech: 145 samples of the past, then the frame's 240. Each half is
// widened and squared once, for its lag and for both of its subframes.
#![tactic(auto)]

ghost use Rattle.std.specs.Prelude.{◌≡◌};
ghost use Rattle.pitch.specs.inner.Readable.{Half};
ghost use Rattle.frame_pitch.specs.inner.Tone.{as_tone, half_tone, tone};

use float::status::Refusal;
use lags::Widened;
use pitch::HnsParams;

// The lag of each half, and the shaping of each subframe.
#[derive(Clone, Copy, Debug, PartialEq)]
pub struct Tone {
    pub lags: [u32; 2],
    pub settings: [HnsParams; 4],
}

// The lag of a half, and the shaping of its two subframes.
#[derive(Clone, Copy)]
struct HalfTone {
    lag: u32,
    early: HnsParams,
    late: HnsParams,
}

#[tactic(auto, using(crate::proofs::Range::range))]
fn half_tone(speech: &[f32; 385], half: usize) -> HalfTone
    requires { Half 142 speech.now half }
    ensures { result ≡ half_tone speech.now half }
{
    let o = 145 + 120 * half;
    let mut widened = Widened::zeros();
    widened.widen(&speech[o - 145..o + 120]);
    let lag = widened.open_loop_lag(142);
    HalfTone {
        lag,
        early: pitch::shaping_in(&widened, 145, 142, lag),
        late: pitch::shaping_in(&widened, 205, 142, lag),
    }
}

// One look at the samples serves both halves and all four subframes: what they refuse is a sample that is not finite.
pub fn tone_of(speech: &[f32; 385]) -> Result<Tone, Refusal>
    ensures { as_tone result ≡ tone speech.now }
{
    float::check_finite(speech)?;
    let a = half_tone(speech, 0);
    let b = half_tone(speech, 1);
    Ok(Tone {
        lags: [a.lag, b.lag],
        settings: [a.early, a.late, b.early, b.late],
    })
}
