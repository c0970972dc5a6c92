// The doors of the line frequencies.
use crate::buffers;
use crate::buffers::{MARK, MARKS};
use spec_lsp::quantise::Quantised;
use spec_lsp::{decode, quantise, resting};
use stability::Stabilised;

// It refuses nothing.
pub fn rest() -> bool {
    buffers::hold(
        |_, set| c_api::g7231_resting_set(set),
        [],
        (),
        MARKS,
        Ok(resting::resting_set()),
    )
}

pub fn cosines_to_freq() -> bool {
    let given = buffers::cosines();
    buffers::hold(
        |cosines, freq| c_api::g7231_bare_lsp_cosines_to_freq(&cosines, freq),
        [(buffers::infinite(), 5)],
        given,
        MARKS,
        convert::lsp_cosines_to_freq(given),
    )
}

pub fn freq_to_cosines() -> bool {
    let given = buffers::frequencies();
    let mut bad = given;
    bad[9] = 65537.0;
    buffers::hold(
        |freq, cosines| c_api::g7231_bare_lsp_freq_to_cosines(&freq, cosines),
        [(bad, 6)],
        given,
        MARKS,
        convert::lsp_freq_to_cosines(given),
    )
}

// The set that is coded and the previous one differ, and so do their answers the other way round.
pub fn quantise() -> bool {
    let p = buffers::frequencies();
    let prev = buffers::other_frequencies();
    buffers::hold(
        |prev, lent| {
            c_api::g7231_bare_quantise_lsp_freq(&p, &prev, &mut lent.index, &mut lent.set)
        },
        [(buffers::infinite(), 5)],
        prev,
        Quantised {
            index: 77,
            set: MARKS,
        },
        quantise::quantise_lsp_freq(p, prev),
    )
}

pub fn decode() -> bool {
    let prev = buffers::frequencies();
    let bad = buffers::infinite();
    buffers::hold(
        |(index, prev), set| c_api::g7231_bare_decode_lsp_freq(index, &prev, set),
        [((66051, bad), 5), ((16777216, bad), 9)],
        (66051, prev),
        MARKS,
        decode::decode_lsp_freq(66051, prev),
    )
}

pub fn split() -> bool {
    buffers::hold(
        |index, bands| c_api::g7231_split_lsp_index(index, bands),
        [(16777216, 9)],
        66051,
        [77; 3],
        Ok([1, 2, 3]),
    )
}

// It refuses nothing.
pub fn combine() -> bool {
    buffers::hold(
        |bands, index| c_api::g7231_combine_lsp_index(&bands, index),
        [],
        [1, 2, 3],
        77,
        Ok(66051),
    )
}

pub fn stability() -> bool {
    let given = buffers::cosines();
    buffers::hold(
        |spacing_hz, (out, converged)| {
            c_api::g7231_bare_enforce_lsp_stability(&given, spacing_hz, out, converged)
        },
        [(401.0, 6)],
        62.5,
        (MARKS, 77),
        stability::enforce_lsp_stability(given, 62.5).map(|Stabilised { cosines, converged }| (
            cosines,
            u32::from(converged),
        )),
    )
}

pub fn interpolate() -> bool {
    let prev = buffers::cosines();
    let cur = buffers::other_cosines();
    buffers::hold(
        |cur, out| c_api::g7231_bare_interpolate_lsp(0, &prev, &cur, out),
        [(buffers::infinite(), 5)],
        cur,
        MARKS,
        lsp_filter::interpolate_lsp(0, prev, cur),
    )
}

pub fn to_lpc() -> bool {
    let given = buffers::cosines();
    buffers::hold(
        |lsp, a| c_api::g7231_bare_lsp_to_lpc(&lsp, a),
        [(buffers::infinite(), 5)],
        given,
        [MARK; 11],
        lsp_filter::lsp_to_lpc(given),
    )
}

// Of eleven ones both sides have the same roots, so that the ten cosines do not fall strictly.
pub fn of_lpc() -> bool {
    let given = buffers::filter();
    buffers::hold(
        |a, lsp| c_api::g7231_bare_lpc_to_lsp(&a, lsp),
        [([1.0; 11], 7)],
        given,
        MARKS,
        lsp::lpc_to_lsp(given),
    )
}
