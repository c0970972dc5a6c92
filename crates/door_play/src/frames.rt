// The doors of the weighting and of the combined filter, with their memories.
use crate::buffers;
use crate::buffers::{MARK, MARKS};
use combined::{Combined, CombinedMem};
use weighting::{Weighted, WeightingTaps};

pub fn taps() -> bool {
    let a = buffers::filter();
    let mut bad = a;
    bad[10] = f32::INFINITY;
    buffers::hold(
        |a, (wz, wp)| c_api::g7231_bare_weighting_taps(&a, wz, wp),
        [(bad, 5)],
        a,
        (MARKS, MARKS),
        weighting::weighting_taps(a).map(|WeightingTaps { wz, wp }| (wz, wp)),
    )
}

// Sixty samples, all different from their neighbours' answers.
fn subframe() -> [f32; 60] {
    let mut x = [0.25; 60];
    x[0] = 1.0;
    x[30] = -0.5;
    x[59] = 0.75;
    x
}

pub fn weight() -> bool {
    let x = subframe();
    let wz = buffers::cosines();
    let wp = buffers::other_cosines();
    let x_mem = buffers::other_cosines();
    let f_mem = buffers::cosines();
    buffers::hold(
        |x, (x_mem, f_mem, out)| {
            c_api::g7231_bare_weight_subframe(x, &wz, &wp, x_mem, f_mem, out)
        },
        [(&x[..59], 1)],
        &x[..],
        (x_mem, f_mem, [MARK; 60]),
        weighting::weight_subframe(&x, wz, wp, x_mem, f_mem).map(|Weighted { out, x_mem, f_mem }| (
            x_mem, f_mem, out,
        )),
    )
}

pub fn combined() -> bool {
    let x = subframe();
    let aq = buffers::filter();
    let zeros = buffers::cosines();
    let poles = buffers::other_cosines();
    let mem = CombinedMem {
        syn: [0.5; 10],
        wz: [0.25; 10],
        wp: [0.125; 10],
        p_hist: [0.0625; 145],
        limit: 82,
    };
    buffers::hold(
        |lag, (mem, out)| {
            c_api::g7231_bare_run_combined(
                mem.limit,
                &mut mem.syn,
                &mut mem.wz,
                &mut mem.wp,
                &mut mem.p_hist,
                &x,
                &aq,
                &zeros,
                &poles,
                lag,
                0.25,
                out,
            )
        },
        [(86, 4)],
        40,
        (mem, [MARK; 60]),
        combined::run_combined(mem, x, aq, zeros, poles, 40, 0.25).map(|Combined { out, mem }| (
            mem, out,
        )),
    )
}

// A memory at rest, for lags up to 82; another limit is refused.
pub fn new_memory() -> bool {
    buffers::hold(
        |limit, mem| {
            c_api::g7231_bare_new_filter_memory(
                limit,
                &mut mem.limit,
                &mut mem.syn,
                &mut mem.wz,
                &mut mem.wp,
                &mut mem.p_hist,
            )
        },
        [(83, 2)],
        82,
        CombinedMem {
            syn: MARKS,
            wz: MARKS,
            wp: MARKS,
            p_hist: [MARK; 145],
            limit: 77,
        },
        Ok(CombinedMem {
            syn: [0.0; 10],
            wz: [0.0; 10],
            wp: [0.0; 10],
            p_hist: [0.0; 145],
            limit: 82,
        }),
    )
}

pub fn response() -> bool {
    let aq = buffers::filter();
    let wz = buffers::cosines();
    let wp = buffers::other_cosines();
    buffers::hold(
        |lag, out| c_api::g7231_bare_combined_impulse_response(82, &aq, &wz, &wp, lag, 0.25, out),
        [(86, 4)],
        40,
        [MARK; 60],
        impulse::combined_impulse_response(82, aq, wz, wp, 40, 0.25),
    )
}
