// The exports of the doors of crates/c_api: each calls the door's function there, and promises what that one does. A crate is a library or a
// static library, not both, and programs of this repository call the doors too.
#![tactic(auto)]

ghost use Rattle.std.specs.Prelude.{◌≡◌};
ghost use Rattle.convert.specs.Convert.{freq_to_cosines, cosines_to_freq};
ghost use Rattle.lpc.specs.Analysis.{lpc_analysis};
ghost use Rattle.stability.specs.Stability.{enforced};
ghost use Rattle.weighting.specs.Taps.{weighting_taps};
ghost use Rattle.weighting.specs.Filter.{weight_subframe};
ghost use Rattle.pitch.specs.Pitch.{open_loop_pitch};
ghost use Rattle.pitch.specs.Shaping.{harmonic_noise_shaping};
ghost use Rattle.lsp_filter.specs.Interpolate.{interpolate_lsp};
ghost use Rattle.lsp_filter.specs.Polynomial.{lsp_to_lpc};
ghost use Rattle.lsp.specs.Pairs.{lpc_to_lsp};
ghost use Rattle.spec_tables.specs.Codebook.{lsp_rows};
ghost use Rattle.spec_lsp.specs.Quantise.{quantise_lsp_freq};
ghost use Rattle.spec_lsp.specs.Decode.{decode_lsp_freq};
ghost use Rattle.lsp_index.specs.Index.{split, combine};
ghost use Rattle.combined.specs.Memory.{new_memory};
ghost use Rattle.combined.specs.Cascade.{settings};
ghost use Rattle.combined.specs.Run.{run_combined};
ghost use Rattle.impulse.specs.Impulse.{impulse_response};
ghost use Rattle.c_api.specs.Lent.{lent, flag};
ghost use Rattle.c_api.specs.Memory.{memory};
ghost use Rattle.spec_lsp.specs.Resting.{resting};

#[unsafe(no_mangle)]
pub extern "C" fn g7231_resting_set(set: &mut [f32; 10]) -> u32
    ensures status { result ≡ 0 }
    ensures lines { set.new ≡ resting }
{
    c_api::g7231_resting_set(set)
}

#[unsafe(no_mangle)]
pub extern "C" fn g7231_bare_lsp_cosines_to_freq(cosines: &[f32; 10], freq: &mut [f32; 10]) -> u32
    ensures status { result ≡ (cosines_to_freq cosines.now).status }
    ensures buffer { freq.new ≡ lent result freq.old (cosines_to_freq cosines.now).lines }
{
    c_api::g7231_bare_lsp_cosines_to_freq(cosines, freq)
}

#[unsafe(no_mangle)]
pub extern "C" fn g7231_bare_lsp_freq_to_cosines(freq: &[f32; 10], cosines: &mut [f32; 10]) -> u32
    ensures status { result ≡ (freq_to_cosines freq.now).status }
    ensures buffer { cosines.new ≡ lent result cosines.old (freq_to_cosines freq.now).lines }
{
    c_api::g7231_bare_lsp_freq_to_cosines(freq, cosines)
}

#[unsafe(no_mangle)]
pub extern "C" fn g7231_bare_lpc_analysis(
    window: &[f32],
    a: &mut [f32; 11],
    r: &mut [f64; 11],
    k2: &mut f32,
) -> u32
    ensures status { result ≡ (lpc_analysis window.now).status }
    ensures coefficients { a.new ≡ lent result a.old (lpc_analysis window.now).set.a }
    ensures sums { r.new ≡ lent result r.old (lpc_analysis window.now).set.r }
    ensures reflection { k2.new ≡ lent result k2.old (lpc_analysis window.now).set.k2 }
{
    c_api::g7231_bare_lpc_analysis(window, a, r, k2)
}

#[unsafe(no_mangle)]
pub extern "C" fn g7231_bare_enforce_lsp_stability(
    cosines: &[f32; 10],
    spacing_hz: f32,
    out: &mut [f32; 10],
    converged: &mut u32,
) -> u32
    ensures status { result ≡ (enforced cosines.now spacing_hz).status }
    ensures lines { out.new ≡ lent result out.old (enforced cosines.now spacing_hz).cosines }
    ensures told { converged.new ≡ lent result converged.old (flag (enforced cosines.now spacing_hz).converged) }
{
    c_api::g7231_bare_enforce_lsp_stability(cosines, spacing_hz, out, converged)
}

#[unsafe(no_mangle)]
pub extern "C" fn g7231_bare_weighting_taps(
    a: &[f32; 11],
    wz: &mut [f32; 10],
    wp: &mut [f32; 10],
) -> u32
    ensures status { result ≡ (weighting_taps a.now).status }
    ensures zeros { wz.new ≡ lent result wz.old (weighting_taps a.now).wz }
    ensures poles { wp.new ≡ lent result wp.old (weighting_taps a.now).wp }
{
    c_api::g7231_bare_weighting_taps(a, wz, wp)
}

#[unsafe(no_mangle)]
pub extern "C" fn g7231_bare_weight_subframe(
    x: &[f32],
    wz: &[f32; 10],
    wp: &[f32; 10],
    x_mem: &mut [f32; 10],
    f_mem: &mut [f32; 10],
    out: &mut [f32; 60],
) -> u32
    ensures status { result ≡ (weight_subframe x.now wz.now wp.now x_mem.old f_mem.old).status }
    ensures inputs { x_mem.new ≡ lent result x_mem.old (weight_subframe x.now wz.now wp.now x_mem.old f_mem.old).x_mem }
    ensures outputs { f_mem.new ≡ lent result f_mem.old (weight_subframe x.now wz.now wp.now x_mem.old f_mem.old).f_mem }
    ensures samples { out.new ≡ lent result out.old (weight_subframe x.now wz.now wp.now x_mem.old f_mem.old).out }
{
    c_api::g7231_bare_weight_subframe(x, wz, wp, x_mem, f_mem, out)
}

#[unsafe(no_mangle)]
pub extern "C" fn g7231_bare_open_loop_pitch(
    limit: u32,
    wbuf: &[f32],
    half: usize,
    lag: &mut u32,
) -> u32
    ensures status { result ≡ (open_loop_pitch limit wbuf.now half).status }
    ensures lag { lag.new ≡ lent result lag.old (open_loop_pitch limit wbuf.now half).lag }
{
    c_api::g7231_bare_open_loop_pitch(limit, wbuf, half, lag)
}

#[unsafe(no_mangle)]
pub extern "C" fn g7231_bare_lpc_to_lsp(a: &[f32; 11], lsp: &mut [f32; 10]) -> u32
    ensures status { result ≡ (lpc_to_lsp a.now).status }
    ensures lines { lsp.new ≡ lent result lsp.old (lpc_to_lsp a.now).lines }
{
    c_api::g7231_bare_lpc_to_lsp(a, lsp)
}

#[unsafe(no_mangle)]
pub extern "C" fn g7231_bare_interpolate_lsp(
    choice: usize,
    prev: &[f32; 10],
    cur: &[f32; 10],
    out: &mut [f32; 10],
) -> u32
    ensures status { result ≡ (interpolate_lsp choice prev.now cur.now).status }
    ensures lines { out.new ≡ lent result out.old (interpolate_lsp choice prev.now cur.now).lines }
{
    c_api::g7231_bare_interpolate_lsp(choice, prev, cur, out)
}

#[unsafe(no_mangle)]
pub extern "C" fn g7231_bare_lsp_to_lpc(lsp: &[f32; 10], a: &mut [f32; 11]) -> u32
    ensures status { result ≡ (lsp_to_lpc lsp.now).status }
    ensures coefficients { a.new ≡ lent result a.old (lsp_to_lpc lsp.now).a }
{
    c_api::g7231_bare_lsp_to_lpc(lsp, a)
}

#[unsafe(no_mangle)]
pub extern "C" fn g7231_bare_harmonic_noise_shaping(
    limit: u32,
    wbuf: &[f32],
    place: usize,
    l_ol: u32,
    lag: &mut u32,
    beta: &mut f32,
) -> u32
    ensures status { result ≡ (harmonic_noise_shaping limit wbuf.now place l_ol).status }
    ensures lag { lag.new ≡ lent result lag.old (harmonic_noise_shaping limit wbuf.now place l_ol).params.lag }
    ensures factor { beta.new ≡ lent result beta.old (harmonic_noise_shaping limit wbuf.now place l_ol).params.beta }
{
    c_api::g7231_bare_harmonic_noise_shaping(limit, wbuf, place, l_ol, lag, beta)
}

#[unsafe(no_mangle)]
pub extern "C" fn g7231_bare_quantise_lsp_freq(
    p: &[f32; 10],
    prev: &[f32; 10],
    index: &mut u32,
    set: &mut [f32; 10],
) -> u32
    ensures status { result ≡ (quantise_lsp_freq lsp_rows p.now prev.now).status }
    ensures index { index.new ≡ lent result index.old (quantise_lsp_freq lsp_rows p.now prev.now).index }
    ensures lines { set.new ≡ lent result set.old (quantise_lsp_freq lsp_rows p.now prev.now).set }
{
    c_api::g7231_bare_quantise_lsp_freq(p, prev, index, set)
}

#[unsafe(no_mangle)]
pub extern "C" fn g7231_bare_decode_lsp_freq(
    index: u32,
    prev: &[f32; 10],
    set: &mut [f32; 10],
) -> u32
    ensures status { result ≡ (decode_lsp_freq lsp_rows index prev.now).status }
    ensures lines { set.new ≡ lent result set.old (decode_lsp_freq lsp_rows index prev.now).lines }
{
    c_api::g7231_bare_decode_lsp_freq(index, prev, set)
}

#[unsafe(no_mangle)]
pub extern "C" fn g7231_split_lsp_index(index: u32, bands: &mut [u8; 3]) -> u32
    ensures status { result ≡ (split index).status }
    ensures rows { bands.new ≡ lent result bands.old (split index).bands }
{
    c_api::g7231_split_lsp_index(index, bands)
}

#[unsafe(no_mangle)]
pub extern "C" fn g7231_combine_lsp_index(bands: &[u8; 3], index: &mut u32) -> u32
    ensures status { result ≡ 0 }
    ensures index { index.new ≡ combine bands.now }
{
    c_api::g7231_combine_lsp_index(bands, index)
}

#[unsafe(no_mangle)]
pub extern "C" fn g7231_bare_new_filter_memory(
    limit: u32,
    lag_limit: &mut u32,
    syn: &mut [f32; 10],
    wz_mem: &mut [f32; 10],
    wp_mem: &mut [f32; 10],
    p_hist: &mut [f32; 145],
) -> u32
    ensures status { result ≡ (new_memory limit).status }
    ensures limit { lag_limit.new ≡ lent result lag_limit.old (new_memory limit).mem.limit }
    ensures synthesis { syn.new ≡ lent result syn.old (new_memory limit).mem.syn }
    ensures zeros { wz_mem.new ≡ lent result wz_mem.old (new_memory limit).mem.wz }
    ensures poles { wp_mem.new ≡ lent result wp_mem.old (new_memory limit).mem.wp }
    ensures history { p_hist.new ≡ lent result p_hist.old (new_memory limit).mem.p_hist }
{
    c_api::g7231_bare_new_filter_memory(limit, lag_limit, syn, wz_mem, wp_mem, p_hist)
}

#[unsafe(no_mangle)]
pub extern "C" fn g7231_bare_run_combined(
    lag_limit: u32,
    syn: &mut [f32; 10],
    wz_mem: &mut [f32; 10],
    wp_mem: &mut [f32; 10],
    p_hist: &mut [f32; 145],
    input: &[f32; 60],
    aq: &[f32; 11],
    wz: &[f32; 10],
    wp: &[f32; 10],
    lag: u32,
    beta: f32,
    out: &mut [f32; 60],
) -> u32
    ensures status { result ≡ (run_combined (settings aq.now wz.now wp.now lag beta) input.now (memory lag_limit syn.old wz_mem.old wp_mem.old p_hist.old)).status }
    ensures synthesis { syn.new ≡ lent result syn.old (run_combined (settings aq.now wz.now wp.now lag beta) input.now (memory lag_limit syn.old wz_mem.old wp_mem.old p_hist.old)).mem.syn }
    ensures zeros { wz_mem.new ≡ lent result wz_mem.old (run_combined (settings aq.now wz.now wp.now lag beta) input.now (memory lag_limit syn.old wz_mem.old wp_mem.old p_hist.old)).mem.wz }
    ensures poles { wp_mem.new ≡ lent result wp_mem.old (run_combined (settings aq.now wz.now wp.now lag beta) input.now (memory lag_limit syn.old wz_mem.old wp_mem.old p_hist.old)).mem.wp }
    ensures history { p_hist.new ≡ lent result p_hist.old (run_combined (settings aq.now wz.now wp.now lag beta) input.now (memory lag_limit syn.old wz_mem.old wp_mem.old p_hist.old)).mem.p_hist }
    ensures samples { out.new ≡ lent result out.old (run_combined (settings aq.now wz.now wp.now lag beta) input.now (memory lag_limit syn.old wz_mem.old wp_mem.old p_hist.old)).out }
{
    c_api::g7231_bare_run_combined(
        lag_limit, syn, wz_mem, wp_mem, p_hist, input, aq, wz, wp, lag, beta, out,
    )
}

#[unsafe(no_mangle)]
pub extern "C" fn g7231_bare_combined_impulse_response(
    limit: u32,
    aq: &[f32; 11],
    wz: &[f32; 10],
    wp: &[f32; 10],
    lag: u32,
    beta: f32,
    out: &mut [f32; 60],
) -> u32
    ensures status { result ≡ (impulse_response limit (settings aq.now wz.now wp.now lag beta)).status }
    ensures samples { out.new ≡ lent result out.old (impulse_response limit (settings aq.now wz.now wp.now lag beta)).out }
{
    c_api::g7231_bare_combined_impulse_response(limit, aq, wz, wp, lag, beta, out)
}
