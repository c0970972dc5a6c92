// Doors for C and Rust, one for each operation: the bare forms, around which the safe forms set the floating-point mode
// (doors/guard.c), and the doors that compute no float. `doors/make check` holds include/g7231.h to them. A door returns
// the operation's status; a refused call leaves every lent buffer as it was.
#![tactic(auto)]

ghost use Rattle.std.specs.Prelude.{◌≡◌};
ghost use Rattle.convert.specs.Convert.{freq_to_cosines, cosines_to_freq};
ghost use Rattle.lpc.specs.Analysis.{lpc_analysis};
ghost use Rattle.stability.specs.Stability.{enforced};
ghost use Rattle.weighting.specs.Taps.{weighting_taps};
ghost use Rattle.weighting.specs.Filter.{weight_subframe};
ghost use Rattle.pitch.specs.Pitch.{open_loop_pitch};
ghost use Rattle.pitch.specs.Shaping.{harmonic_noise_shaping};
ghost use Rattle.lsp_filter.specs.Interpolate.{interpolate_lsp};
ghost use Rattle.lsp_filter.specs.Polynomial.{lsp_to_lpc};
ghost use Rattle.lsp.specs.Pairs.{lpc_to_lsp};
ghost use Rattle.spec_tables.specs.Codebook.{lsp_rows};
ghost use Rattle.spec_lsp.specs.Quantise.{quantise_lsp_freq};
ghost use Rattle.spec_lsp.specs.Decode.{decode_lsp_freq};
ghost use Rattle.lsp_index.specs.Index.{split, combine};
ghost use Rattle.combined.specs.Memory.{new_memory};
ghost use Rattle.combined.specs.Cascade.{settings};
ghost use Rattle.combined.specs.Run.{run_combined};
ghost use Rattle.impulse.specs.Impulse.{impulse_response};
ghost use Rattle.float.specs.Answered.{status_of};
ghost use Rattle.c_api.specs.Lent.{lent, part, flag};
ghost use Rattle.c_api.specs.Memory.{memory};
ghost use Rattle.spec_lsp.specs.Resting.{resting};

use combined::{Combined, CombinedMem};
use float::status::Refusal;
use lpc::LpcSet;
use spec_lsp::quantise::Quantised;
use stability::Stabilised;
use weighting::{Weighted, WeightingTaps};

// What a door makes of an answer that fills one buffer: the status, and in the buffer the value, or what it held.
pub fn store<T: Copy>(answer: Result<T, Refusal>, buffer: &mut T) -> u32
    ensures status { result ≡ status_of answer }
    ensures buffer { buffer.new ≡ part (λ value. value) buffer.old answer }
{
    match answer {
        Ok(value) => {
            *buffer = value;
            0
        }
        Err(refusal) => refusal.number(),
    }
}

// The same of a quantiser's answer, which fills two.
pub fn store_quantised(
    quantised: Result<Quantised, Refusal>,
    index: &mut u32,
    set: &mut [f32; 10],
) -> u32
    ensures status { result ≡ status_of quantised }
    ensures index { index.new ≡ part (λ sent. sent.index) index.old quantised }
    ensures set { set.new ≡ part (λ sent. sent.set) set.old quantised }
{
    match quantised {
        Ok(answer) => {
            let Quantised {
                index: sent,
                set: lines,
            } = answer;
            *index = sent;
            *set = lines;
            0
        }
        Err(refusal) => refusal.number(),
    }
}

// It has no bare form: a whole number as a single is exact in every mode.
pub fn g7231_resting_set(set: &mut [f32; 10]) -> u32
    ensures status { result ≡ 0 }
    ensures lines { set.new ≡ resting }
{
    *set = spec_lsp::resting::resting_set();
    0
}

#[tactic(auto, using(crate::proofs::Lent::fills))]
pub fn g7231_bare_lsp_cosines_to_freq(cosines: &[f32; 10], freq: &mut [f32; 10]) -> u32
    ensures status { result ≡ (cosines_to_freq cosines.now).status }
    ensures buffer { freq.new ≡ lent result freq.old (cosines_to_freq cosines.now).lines }
{
    store(convert::lsp_cosines_to_freq(*cosines), freq)
}

#[tactic(auto, using(crate::proofs::Lent::fills))]
pub fn g7231_bare_lsp_freq_to_cosines(freq: &[f32; 10], cosines: &mut [f32; 10]) -> u32
    ensures status { result ≡ (freq_to_cosines freq.now).status }
    ensures buffer { cosines.new ≡ lent result cosines.old (freq_to_cosines freq.now).lines }
{
    store(convert::lsp_freq_to_cosines(*freq), cosines)
}

#[tactic(auto, unfolding(lpc::specs::Analysis::refused_set))]
pub fn g7231_bare_lpc_analysis(
    window: &[f32],
    a: &mut [f32; 11],
    r: &mut [f64; 11],
    k2: &mut f32,
) -> u32
    ensures status { result ≡ (lpc_analysis window.now).status }
    ensures coefficients { a.new ≡ lent result a.old (lpc_analysis window.now).set.a }
    ensures sums { r.new ≡ lent result r.old (lpc_analysis window.now).set.r }
    ensures reflection { k2.new ≡ lent result k2.old (lpc_analysis window.now).set.k2 }
{
    match lpc::lpc_analysis(window) {
        Ok(set) => {
            let LpcSet {
                a: coefficients,
                r: sums,
                k2: reflection,
            } = set;
            *a = coefficients;
            *r = sums;
            *k2 = reflection;
            0
        }
        Err(refusal) => refusal.number(),
    }
}

pub fn g7231_bare_enforce_lsp_stability(
    cosines: &[f32; 10],
    spacing_hz: f32,
    out: &mut [f32; 10],
    converged: &mut u32,
) -> u32
    ensures status { result ≡ (enforced cosines.now spacing_hz).status }
    ensures lines { out.new ≡ lent result out.old (enforced cosines.now spacing_hz).cosines }
    ensures told { converged.new ≡ lent result converged.old (flag (enforced cosines.now spacing_hz).converged) }
{
    match stability::enforce_lsp_stability(*cosines, spacing_hz) {
        Ok(answer) => {
            let Stabilised {
                cosines: lines,
                converged: told,
            } = answer;
            *out = lines;
            *converged = u32::from(told);
            0
        }
        Err(refusal) => refusal.number(),
    }
}

pub fn g7231_bare_weighting_taps(a: &[f32; 11], wz: &mut [f32; 10], wp: &mut [f32; 10]) -> u32
    ensures status { result ≡ (weighting_taps a.now).status }
    ensures zeros { wz.new ≡ lent result wz.old (weighting_taps a.now).wz }
    ensures poles { wp.new ≡ lent result wp.old (weighting_taps a.now).wp }
{
    match weighting::weighting_taps(*a) {
        Ok(taps) => {
            let WeightingTaps {
                wz: zeros,
                wp: poles,
            } = taps;
            *wz = zeros;
            *wp = poles;
            0
        }
        Err(refusal) => refusal.number(),
    }
}

pub fn g7231_bare_weight_subframe(
    x: &[f32],
    wz: &[f32; 10],
    wp: &[f32; 10],
    x_mem: &mut [f32; 10],
    f_mem: &mut [f32; 10],
    out: &mut [f32; 60],
) -> u32
    ensures status { result ≡ (weight_subframe x.now wz.now wp.now x_mem.old f_mem.old).status }
    ensures inputs { x_mem.new ≡ lent result x_mem.old (weight_subframe x.now wz.now wp.now x_mem.old f_mem.old).x_mem }
    ensures outputs { f_mem.new ≡ lent result f_mem.old (weight_subframe x.now wz.now wp.now x_mem.old f_mem.old).f_mem }
    ensures samples { out.new ≡ lent result out.old (weight_subframe x.now wz.now wp.now x_mem.old f_mem.old).out }
{
    match weighting::weight_subframe(x, *wz, *wp, *x_mem, *f_mem) {
        Ok(answer) => {
            let Weighted {
                out: samples,
                x_mem: inputs,
                f_mem: outputs,
            } = answer;
            *x_mem = inputs;
            *f_mem = outputs;
            *out = samples;
            0
        }
        Err(refusal) => refusal.number(),
    }
}

#[tactic(auto, using(crate::proofs::Lent::fills))]
pub fn g7231_bare_open_loop_pitch(limit: u32, wbuf: &[f32], half: usize, lag: &mut u32) -> u32
    ensures status { result ≡ (open_loop_pitch limit wbuf.now half).status }
    ensures lag { lag.new ≡ lent result lag.old (open_loop_pitch limit wbuf.now half).lag }
{
    store(pitch::open_loop_pitch(limit, wbuf, half), lag)
}

#[tactic(auto, using(crate::proofs::Lent::fills))]
pub fn g7231_bare_lpc_to_lsp(a: &[f32; 11], lsp: &mut [f32; 10]) -> u32
    ensures status { result ≡ (lpc_to_lsp a.now).status }
    ensures lines { lsp.new ≡ lent result lsp.old (lpc_to_lsp a.now).lines }
{
    store(lsp::lpc_to_lsp(*a), lsp)
}

#[tactic(auto, using(crate::proofs::Lent::fills))]
pub fn g7231_bare_interpolate_lsp(
    choice: usize,
    prev: &[f32; 10],
    cur: &[f32; 10],
    out: &mut [f32; 10],
) -> u32
    ensures status { result ≡ (interpolate_lsp choice prev.now cur.now).status }
    ensures lines { out.new ≡ lent result out.old (interpolate_lsp choice prev.now cur.now).lines }
{
    store(lsp_filter::interpolate_lsp(choice, *prev, *cur), out)
}

#[tactic(auto, using(crate::proofs::Lent::fills))]
pub fn g7231_bare_lsp_to_lpc(lsp: &[f32; 10], a: &mut [f32; 11]) -> u32
    ensures status { result ≡ (lsp_to_lpc lsp.now).status }
    ensures coefficients { a.new ≡ lent result a.old (lsp_to_lpc lsp.now).a }
{
    store(lsp_filter::lsp_to_lpc(*lsp), a)
}

#[tactic(auto, unfolding(pitch::specs::Shaping::refused_shaping))]
pub fn g7231_bare_harmonic_noise_shaping(
    limit: u32,
    wbuf: &[f32],
    place: usize,
    l_ol: u32,
    lag: &mut u32,
    beta: &mut f32,
) -> u32
    ensures status { result ≡ (harmonic_noise_shaping limit wbuf.now place l_ol).status }
    ensures lag { lag.new ≡ lent result lag.old (harmonic_noise_shaping limit wbuf.now place l_ol).params.lag }
    ensures factor { beta.new ≡ lent result beta.old (harmonic_noise_shaping limit wbuf.now place l_ol).params.beta }
{
    match pitch::harmonic_noise_shaping(limit, wbuf, place, l_ol) {
        Ok(params) => {
            *lag = params.lag;
            *beta = params.beta;
            0
        }
        Err(refusal) => refusal.number(),
    }
}

#[tactic(auto, using(crate::proofs::Lent::fills))]
pub fn g7231_bare_quantise_lsp_freq(
    p: &[f32; 10],
    prev: &[f32; 10],
    index: &mut u32,
    set: &mut [f32; 10],
) -> u32
    ensures status { result ≡ (quantise_lsp_freq lsp_rows p.now prev.now).status }
    ensures index { index.new ≡ lent result index.old (quantise_lsp_freq lsp_rows p.now prev.now).index }
    ensures lines { set.new ≡ lent result set.old (quantise_lsp_freq lsp_rows p.now prev.now).set }
{
    store_quantised(spec_lsp::quantise::quantise_lsp_freq(*p, *prev), index, set)
}

#[tactic(auto, using(crate::proofs::Lent::fills))]
pub fn g7231_bare_decode_lsp_freq(index: u32, prev: &[f32; 10], set: &mut [f32; 10]) -> u32
    ensures status { result ≡ (decode_lsp_freq lsp_rows index prev.now).status }
    ensures lines { set.new ≡ lent result set.old (decode_lsp_freq lsp_rows index prev.now).lines }
{
    store(spec_lsp::decode::decode_lsp_freq(index, *prev), set)
}

// Neither has a bare form: bytes and words are the same in every mode.
#[tactic(auto, using(crate::proofs::Lent::fills))]
pub fn g7231_split_lsp_index(index: u32, bands: &mut [u8; 3]) -> u32
    ensures status { result ≡ (split index).status }
    ensures rows { bands.new ≡ lent result bands.old (split index).bands }
{
    store(lsp_index::split_lsp_index(index), bands)
}

pub fn g7231_combine_lsp_index(bands: &[u8; 3], index: &mut u32) -> u32
    ensures status { result ≡ 0 }
    ensures index { index.new ≡ combine bands.now }
{
    *index = lsp_index::combine_lsp_index(*bands);
    0
}

// The fields of a memory at rest. It computes no float, and has a bare form since its struct is taken in parts.
pub fn g7231_bare_new_filter_memory(
    limit: u32,
    lag_limit: &mut u32,
    syn: &mut [f32; 10],
    wz_mem: &mut [f32; 10],
    wp_mem: &mut [f32; 10],
    p_hist: &mut [f32; 145],
) -> u32
    ensures status { result ≡ (new_memory limit).status }
    ensures limit { lag_limit.new ≡ lent result lag_limit.old (new_memory limit).mem.limit }
    ensures synthesis { syn.new ≡ lent result syn.old (new_memory limit).mem.syn }
    ensures zeros { wz_mem.new ≡ lent result wz_mem.old (new_memory limit).mem.wz }
    ensures poles { wp_mem.new ≡ lent result wp_mem.old (new_memory limit).mem.wp }
    ensures history { p_hist.new ≡ lent result p_hist.old (new_memory limit).mem.p_hist }
{
    match CombinedMem::new(limit) {
        Ok(made) => {
            let CombinedMem {
                syn: outputs,
                wz: zeros,
                wp: poles,
                p_hist: history,
                limit: known,
            } = made;
            *lag_limit = known;
            *syn = outputs;
            *wz_mem = zeros;
            *wp_mem = poles;
            *p_hist = history;
            0
        }
        Err(refusal) => refusal.number(),
    }
}

pub fn g7231_bare_run_combined(
    lag_limit: u32,
    syn: &mut [f32; 10],
    wz_mem: &mut [f32; 10],
    wp_mem: &mut [f32; 10],
    p_hist: &mut [f32; 145],
    input: &[f32; 60],
    aq: &[f32; 11],
    wz: &[f32; 10],
    wp: &[f32; 10],
    lag: u32,
    beta: f32,
    out: &mut [f32; 60],
) -> u32
    ensures status { result ≡ (run_combined (settings aq.now wz.now wp.now lag beta) input.now (memory lag_limit syn.old wz_mem.old wp_mem.old p_hist.old)).status }
    ensures synthesis { syn.new ≡ lent result syn.old (run_combined (settings aq.now wz.now wp.now lag beta) input.now (memory lag_limit syn.old wz_mem.old wp_mem.old p_hist.old)).mem.syn }
    ensures zeros { wz_mem.new ≡ lent result wz_mem.old (run_combined (settings aq.now wz.now wp.now lag beta) input.now (memory lag_limit syn.old wz_mem.old wp_mem.old p_hist.old)).mem.wz }
    ensures poles { wp_mem.new ≡ lent result wp_mem.old (run_combined (settings aq.now wz.now wp.now lag beta) input.now (memory lag_limit syn.old wz_mem.old wp_mem.old p_hist.old)).mem.wp }
    ensures history { p_hist.new ≡ lent result p_hist.old (run_combined (settings aq.now wz.now wp.now lag beta) input.now (memory lag_limit syn.old wz_mem.old wp_mem.old p_hist.old)).mem.p_hist }
    ensures samples { out.new ≡ lent result out.old (run_combined (settings aq.now wz.now wp.now lag beta) input.now (memory lag_limit syn.old wz_mem.old wp_mem.old p_hist.old)).out }
{
    let mem = CombinedMem {
        syn: *syn,
        wz: *wz_mem,
        wp: *wp_mem,
        p_hist: *p_hist,
        limit: lag_limit,
    };
    match combined::run_combined(mem, *input, *aq, *wz, *wp, lag, beta) {
        Ok(answer) => {
            let Combined { out: samples, mem } = answer;
            let CombinedMem {
                syn: outputs,
                wz: zeros,
                wp: poles,
                p_hist: history,
                ..
            } = mem;
            *syn = outputs;
            *wz_mem = zeros;
            *wp_mem = poles;
            *p_hist = history;
            *out = samples;
            0
        }
        Err(refusal) => refusal.number(),
    }
}

#[tactic(auto, using(crate::proofs::Lent::fills))]
pub fn g7231_bare_combined_impulse_response(
    limit: u32,
    aq: &[f32; 11],
    wz: &[f32; 10],
    wp: &[f32; 10],
    lag: u32,
    beta: f32,
    out: &mut [f32; 60],
) -> u32
    ensures status { result ≡ (impulse_response limit (settings aq.now wz.now wp.now lag beta)).status }
    ensures samples { out.new ≡ lent result out.old (impulse_response limit (settings aq.now wz.now wp.now lag beta)).out }
{
    store(
        impulse::combined_impulse_response(limit, *aq, *wz, *wp, lag, beta),
        out,
    )
}
