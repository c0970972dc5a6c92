// The combined filter's impulse response (§2.12), which the excitation search takes its pulses through.
#![tactic(auto)]

ghost use Rattle.std.specs.Prelude.{◌≡◌};
ghost use Rattle.combined.specs.Cascade.{settings};
ghost use Rattle.combined.specs.Run.{as_out};
ghost use Rattle.impulse.specs.Impulse.{impulse_response};

use float::status::Refusal;

// The filter's response to the unit impulse, from rest. It looks at the limit first, as at that of any memory. The settings stay apart, as
// docs/TRUST.md promises it by them.
pub fn combined_impulse_response(
    limit: u32,
    aq: [f32; 11],
    wz: [f32; 10],
    wp: [f32; 10],
    lag: u32,
    beta: f32,
) -> Result<[f32; 60], Refusal>
    ensures { as_out result ≡ impulse_response limit (settings aq wz wp lag beta) }
{
    let mut delta = [0.0f32; 60];
    delta[0] = 1.0;
    let rest = combined::at_rest(limit);
    let done = combined::run_combined(rest, delta, aq, wz, wp, lag, beta)?;
    Ok(done.out)
}
