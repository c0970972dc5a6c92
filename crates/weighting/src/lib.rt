// The formant perceptual weighting filter (§2.8): its taps, and one subframe through it.
#![tactic(auto)]

ghost use Rattle.std.specs.Prelude.{◌≡◌, ◌<◌, drop};
ghost use Rattle.float.specs.Single.{◌⊕◌, ◌⊖◌, ◌⊗◌};
ghost use Rattle.weighting.specs.Taps.{taps, as_taps, weighting_taps};
ghost use Rattle.weighting.specs.Filter.{weighted, filtered, done, made, as_weighted, weight_subframe};
ghost use Rattle.weighting.specs.inner.Delay.{behind, Delay};

use float::status::Refusal;

#[derive(Drop)]
pub struct WeightingTaps {
    pub wz: [f32; 10],
    pub wp: [f32; 10],
}

#[derive(Clone, Copy)]
pub struct Weighted {
    pub out: [f32; 60],
    pub x_mem: [f32; 10],
    pub f_mem: [f32; 10],
}

// Coefficients 1 to 10, each times its entry / 32,768.
fn scaled(a: &[f32; 11], entries: &[i16; 10]) -> [f32; 10]
    ensures { result ≡ taps entries.now a.now }
{
    std::array::from_fn(|k| a[k + 1] * (f32::from(entries[k]) / 32768.0))
}

// The filter's taps from a predictor's coefficients: those of its zeros, and those of its poles.
#[tactic(auto, using(float::proofs::Refusal::exits), unfolding(crate::specs::Taps::weighting_taps))]
pub fn weighting_taps(a: [f32; 11]) -> Result<WeightingTaps, Refusal>
    ensures { as_taps result ≡ weighting_taps a }
{
    float::check_finite(&a)?;
    Ok(WeightingTaps {
        wz: scaled(&a, &spec_tables::perceptual_zero()),
        wp: scaled(&a, &spec_tables::perceptual_pole()),
    })
}

// One term of the filter's sum.
pub fn add_tap(f: f32, z: f32, x: f32, p: f32, past: f32) -> f32
    ensures { result ≡ f ⊕ (z ⊗ x ⊖ p ⊗ past) }
{
    f + (z * x - p * past)
}

// A delay that starts with a memory, oldest first.
pub fn start_delay(memory: &[f32; 10]) -> [f32; 70]
    ensures { behind 0 result ≡ memory.now }
{
    let mut oldest_first = *memory;
    oldest_first.reverse();
    let mut delay = [0.0f32; 70];
    delay[..10].copy_from_slice(&oldest_first);
    delay
}

// A delay: a memory, and the sixty samples after it.
fn delayed(memory: &[f32; 10], x: &[f32; 60]) -> [f32; 70]
    ensures { Delay memory.now x.now result }
{
    let mut delay = start_delay(memory);
    delay[10..].copy_from_slice(x);
    delay
}

// The sixty samples of a delay after its memory.
fn samples(delay: &[f32; 70]) -> [f32; 60]
    ensures { result ≡ drop 10 delay.now }
{
    *delay.last_chunk().unwrap()
}

// The last ten values of a delay, most recent first.
#[tactic(auto, using(crate::proofs::Delay::behind_last))]
pub fn last_ten(delay: &[f32; 70]) -> [f32; 10]
    ensures { result ≡ behind 60 delay.now }
{
    let mut memory = *delay.last_chunk().unwrap();
    memory.reverse();
    memory
}

// Sample n of the filter, x with the inputs and the outputs before it. Inside the loop that calls it: outside of it the combined filter took
// 863 instructions more a call.
#[inline(always)]
pub fn weight_sample(x: f32, n: usize, taps: &WeightingTaps, xs: &[f32; 70], fs: &[f32; 70]) -> f32
    requires { n < 60 }
    ensures { result ≡ weighted taps.now.wz taps.now.wp x (behind n xs.now) (behind n fs.now) }
{
    let mut f = x;
    // four arrays by one index, two of them from their end: no chain says it more plainly
    for k in 0..10 {
        f = add_tap(f, taps.wz[k], xs[n + 9 - k], taps.wp[k], fs[n + 9 - k]);
    }
    f
}

// Sixty samples through the filter: each output joins the delay of outputs.
fn weight_all(x: &[f32; 60], taps: &WeightingTaps, x_mem: &[f32; 10], f_mem: &[f32; 10]) -> Weighted
    ensures { made result ≡ done (filtered x.now taps.now.wz taps.now.wp x_mem.now f_mem.now 60) }
{
    let xs = delayed(x_mem, x);
    let mut fs = start_delay(f_mem);
    for (n, v) in x.iter().enumerate() {
        fs[n + 10] = weight_sample(*v, n, taps, &xs, &fs);
    }
    Weighted {
        out: samples(&fs),
        x_mem: last_ten(&xs),
        f_mem: last_ten(&fs),
    }
}

// One subframe through the filter: 60 samples, and no float that is not finite. Both memories come back. Taps and memories stay apart, as
// docs/TRUST.md promises it by them.
#[tactic(auto, using(float::proofs::Refusal::exits), unfolding(crate::specs::Filter::weight_subframe))]
pub fn weight_subframe(
    x: &[f32],
    wz: [f32; 10],
    wp: [f32; 10],
    x_mem: [f32; 10],
    f_mem: [f32; 10],
) -> Result<Weighted, Refusal>
    ensures { as_weighted x_mem f_mem result ≡ weight_subframe x.now wz wp x_mem f_mem }
{
    let x = x.as_array().ok_or(Refusal::Length)?;
    float::check_lists(&[x, &wz, &wp, &x_mem, &f_mem])?;
    Ok(weight_all(x, &WeightingTaps { wz, wp }, &x_mem, &f_mem))
}
