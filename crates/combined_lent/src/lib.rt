// The combined filter over a memory that the caller lends. The settings stay apart, as docs/TRUST.md promises the filter by them.
#![tactic(auto)]

ghost use Rattle.std.specs.Prelude.{◌≡◌};
ghost use Rattle.combined.specs.Cascade.{settings};
ghost use Rattle.combined.specs.Run.{run_combined, answered, as_combined, as_out};

use combined::{Combined, CombinedMem};
use float::status::Refusal;

// One subframe through the filter, whose memory is lent. It is altered only where nothing is refused.
pub fn run_combined_lent(
    mem: &mut CombinedMem,
    input: [f32; 60],
    aq: [f32; 11],
    wz: [f32; 10],
    wp: [f32; 10],
    lag: u32,
    beta: f32,
) -> Result<[f32; 60], Refusal>
    ensures { (as_out result ≡ answered (run_combined (settings aq wz wp lag beta) input mem.old)) × (mem.new ≡ (run_combined (settings aq wz wp lag beta) input mem.old).mem) }
{
    let done = combined::run_combined(*mem, input, aq, wz, wp, lag, beta)?;
    *mem = done.mem;
    Ok(done.out)
}

// The same for a memory that travels by value: a local is lent, so that a program without lent memory of its own runs the lent form.
pub fn run_combined_lending(
    mem: CombinedMem,
    input: [f32; 60],
    aq: [f32; 11],
    wz: [f32; 10],
    wp: [f32; 10],
    lag: u32,
    beta: f32,
) -> Result<Combined, Refusal>
    ensures { as_combined mem result ≡ run_combined (settings aq wz wp lag beta) input mem }
{
    let mut held = mem;
    let out = run_combined_lent(&mut held, input, aq, wz, wp, lag, beta)?;
    Ok(Combined { out, mem: held })
}
