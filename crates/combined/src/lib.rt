// The combined filter (§2.12): synthesis, formant weighting and harmonic noise shaping of one subframe.
#![tactic(auto)]

mod arrays;
mod settings;

ghost use Rattle.std.specs.Prelude.{◌≡◌, ◌≤◌};
ghost use Rattle.lag_limit.specs.Limit.{reach};
ghost use Rattle.lag_limit.specs.Choice.{lags_of};
ghost use Rattle.combined.specs.Memory.{at_rest, as_memory, new_memory};
ghost use Rattle.combined.specs.Cascade.{settings, cascaded};
ghost use Rattle.combined.specs.inner.Made.{settings_of};
ghost use Rattle.combined.specs.Run.{done, made, as_combined, run_combined};

use arrays::Arrays;
use float::status::Refusal;
use harmonic_history::PLACES;
use lag_limit::LagLimit;
use settings::Settings;
use weighting::WeightingTaps;

// The filter's memory: three memories, most recent first; the history of harmonic inputs, oldest first, whose first limit + 3 places are in
// use; and the limit of its caller's lags, which no call alters.
#[derive(Clone, Copy, PartialEq)]
pub struct CombinedMem {
    pub syn: [f32; 10],
    pub wz: [f32; 10],
    pub wp: [f32; 10],
    pub p_hist: [f32; PLACES],
    pub limit: u32,
}

// A memory at rest, of any limit: the filter refuses one that is not known.
pub fn at_rest(limit: u32) -> CombinedMem
    ensures { result ≡ at_rest limit }
{
    CombinedMem {
        syn: [0.0f32; 10],
        wz: [0.0f32; 10],
        wp: [0.0f32; 10],
        p_hist: [0.0f32; PLACES],
        limit,
    }
}

impl CombinedMem {
    // A filter at rest, for lags up to 142 or 82.
    #[tactic(auto, using(float::proofs::Refusal::exits, lag_limit::proofs::Known::choices), unfolding(crate::specs::Memory::new_memory))]
    pub fn new(limit: u32) -> Result<CombinedMem, Refusal>
        ensures { as_memory result ≡ new_memory limit }
    {
        let limit = LagLimit::try_from(limit)?;
        Ok(at_rest(limit.lags()))
    }
}

#[derive(Drop)]
pub struct Combined {
    pub out: [f32; 60],
    pub mem: CombinedMem,
}

// One subframe. Memory and history are copied into the arrays before the first sample and out of them after the last.
fn run(mem: &CombinedMem, input: &[f32; 60], q: &Settings, limit: LagLimit) -> Combined
    requires own { lags_of limit ≡ mem.now.limit }
    requires low { 18 ≤ q.now.lag }
    requires high { q.now.lag ≤ reach mem.now.limit }
    ensures { made result ≡ done mem.now (cascaded (settings_of q.now) input.now mem.now 60) }
{
    let mut work = Arrays {
        syn: weighting::start_delay(&mem.syn),
        xs: weighting::start_delay(&mem.wz),
        fs: weighting::start_delay(&mem.wp),
        p: harmonic_history::start(&mem.p_hist, limit),
        out: [0.0f32; 60],
    };
    work.sixty_samples(input, q);
    let mut after = CombinedMem {
        syn: weighting::last_ten(&work.syn),
        wz: weighting::last_ten(&work.xs),
        wp: weighting::last_ten(&work.fs),
        p_hist: mem.p_hist,
        limit: mem.limit,
    };
    harmonic_history::settle(&mut after.p_hist, &work.p, limit);
    Combined {
        out: work.out,
        mem: after,
    }
}

// One subframe through the filter: a limit that is known, a lag of 18..limit + 3, and no float in use that is not finite. The memory comes
// back. The settings stay apart here, as docs/TRUST.md promises the filter by them.
#[tactic(auto, using(float::proofs::Refusal::exits, lag_limit::proofs::Known::choices), unfolding(crate::specs::Run::run_combined))]
pub fn run_combined(
    mem: CombinedMem,
    input: [f32; 60],
    aq: [f32; 11],
    wz: [f32; 10],
    wp: [f32; 10],
    lag: u32,
    beta: f32,
) -> Result<Combined, Refusal>
    ensures { as_combined mem result ≡ run_combined (settings aq wz wp lag beta) input mem }
{
    let limit = LagLimit::try_from(mem.limit)?;
    let lag = lag as usize;
    if lag < 18 || lag > limit.reach() {
        return Err(Refusal::Lag);
    }
    let history = harmonic_history::in_use(&mem.p_hist, limit);
    float::check_lists(&[
        &mem.syn,
        &mem.wz,
        &mem.wp,
        history,
        &input,
        &aq,
        &wz,
        &wp,
        &[beta],
    ])?;
    let q = Settings {
        aq,
        taps: WeightingTaps { wz, wp },
        lag,
        beta,
    };
    Ok(run(&mem, &input, &q, limit))
}
