// The stability procedure of a line set (§2.6, §3.10): lines that stand too close are spread apart, and the outer ones kept off the ends.
#![tactic(auto)]

ghost use Rattle.std.specs.Prelude.{◌≡◌, true, false, map};
ghost use Rattle.std.specs.Float.Ieee.Scale.{finite};
ghost use Rattle.float.specs.Refusal.{all, first};
ghost use Rattle.float.specs.Answered.{status_of};
ghost use Rattle.stability.specs.Spacing.{spacing, outside};
ghost use Rattle.stability.specs.Passes.{pass, settled};
ghost use Rattle.stability.specs.Clamps.{margin, clamped};
ghost use Rattle.stability.specs.Stability.{angle_of, stable, done, spacing_refusals, enforced, stabilised, as_stabilised};

use float::status::Refusal;

#[derive(Drop)]
pub struct Stabilised {
    pub cosines: [f32; 10],
    pub converged: bool,
}

// A spacing in radians.
#[tactic(auto, using(crate::proofs::Written::codes), unfolding(crate::specs::Spacing::spacing))]
fn spacing(hz: f32) -> f32
    ensures { result ≡ spacing hz }
{
    6.283185482025146484375 * hz / 8000.0
}

// One pass over the nine pairs, each with what is left of the one before it; it tells whether none was too close.
fn pass(angles: &mut [f32; 10], delta: f32) -> bool
    ensures { pass delta angles.old ≡ record { angles = angles.new; converged = result } }
{
    let half = 0.5 * delta;
    let least = delta - delta * 1.0e-5;
    let mut converged = true;
    // by place: the next pair is made of what this one leaves, and `windows` lends nothing to change
    for j in 0..9 {
        if angles[j + 1] - angles[j] < least {
            let middle = 0.5 * (angles[j] + angles[j + 1]);
            angles[j] = middle - half;
            angles[j + 1] = middle + half;
            converged = false;
        }
    }
    converged
}

// At most ten passes, up to the first that meets no pair too close.
fn settle(angles: &mut [f32; 10], delta: f32) -> bool
    ensures { settled delta angles.old ≡ record { angles = angles.new; converged = result } }
{
    for _ in 0..10usize {
        if pass(angles, delta) {
            return true;
        }
    }
    false
}

// The greater of half the spacing and 0.001. By a test, here and in `clamp`: `max` and `min` would drop a NaN, which the definitions keep.
#[tactic(auto, using(crate::proofs::Written::codes), unfolding(crate::specs::Clamps::margin, crate::specs::Spacing::half))]
fn margin(delta: f32) -> f32
    ensures { result ≡ margin delta }
{
    let margin = 0.5 * delta;
    if margin < 1.0e-3 { 1.0e-3 } else { margin }
}

// The first angle and the last one, kept off the ends.
#[tactic(auto, using(crate::proofs::Written::codes), unfolding(crate::specs::Clamps::clamped, crate::specs::Clamps::raised, crate::specs::Clamps::lowered))]
fn clamp(angles: &mut [f32; 10], delta: f32)
    ensures { angles.new ≡ clamped delta angles.old }
{
    let margin = margin(delta);
    let most = 3.1415927410125732421875 - margin;
    if angles[0] < margin {
        angles[0] = margin;
    }
    if most < angles[9] {
        angles[9] = most;
    }
}

// The procedure, for a set and a spacing that are not refused.
fn stabilise(cosines: [f32; 10], hz: f32) -> Stabilised
    requires cosines_finite { all finite cosines ≡ true }
    requires spacing_finite { finite hz ≡ true }
    requires spacing_inside { outside hz ≡ false }
    ensures { stabilised result ≡ done (stable (spacing hz) (map angle_of cosines)) }
{
    let delta = spacing(hz);
    let mut angles = cosines.map(|c| cosine::angle(cosine::step(c)));
    let converged = settle(&mut angles, delta);
    clamp(&mut angles, delta);
    Stabilised {
        cosines: angles.map(|a| cosine::cosine_single(cosine::step_of_angle(a))),
        converged,
    }
}

// The first refusal due: 5 for the spacing or any cosine; 6 for a spacing outside 0..400 Hz.
fn check_spacing(cosines: &[f32], hz: f32) -> Result<(), Refusal>
    ensures { status_of result ≡ first (spacing_refusals cosines.now hz) }
{
    if !float::is_finite(hz) || !float::all_finite(cosines) {
        return Err(Refusal::NotFinite);
    }
    if hz < 0.0 || 400.0 < hz {
        return Err(Refusal::OutOfRange);
    }
    Ok(())
}

// Lines at least a spacing apart, where at most ten passes reach it; `converged` tells that a pass met no pair too close.
#[tactic(auto, using(float::proofs::Refusal::exits, crate::proofs::Checked::shown), unfolding(crate::specs::Stability::enforced))]
pub fn enforce_lsp_stability(cosines: [f32; 10], spacing_hz: f32) -> Result<Stabilised, Refusal>
    ensures { as_stabilised result ≡ enforced cosines spacing_hz }
{
    check_spacing(&cosines, spacing_hz)?;
    Ok(stabilise(cosines, spacing_hz))
}
