// Words on their way to three rows and to a set: request E4's cases.
use float::status::Refusal;
use spec_lsp::decode::{decode_in, decode_lsp_freq};
use spec_lsp::resting::resting_set;

pub fn splits(word: u32, bands: [u8; 3]) -> bool {
    lsp_index::split_lsp_index(word) == Ok(bands)
}

// The zeros of a refusal's line, here and below, are the definition's: an `Err` has neither rows nor a set.
pub fn split_refused(word: u32) -> bool {
    lsp_index::split_lsp_index(word) == Err(Refusal::LongIndex)
}

pub fn decode_refused(word: u32) -> bool {
    decode_lsp_freq(word, resting_set()) == Err(Refusal::LongIndex)
}

pub fn last_index() -> bool {
    decode_lsp_freq(16777215, resting_set())
        == Ok([
            4824.0, 9514.0, 13702.0, 14841.0, 19206.0, 21407.0, 22675.0, 25777.0, 28051.0, 29036.0,
        ])
}

// After a previous set with a NaN, and after one of 70,000s.
pub fn after_unfit_sets(word: u32, nan: Refusal, large: Refusal) -> bool {
    let mut unfit = resting_set();
    unfit[9] = f32::NAN;
    decode_lsp_freq(word, unfit) == Err(nan) && decode_lsp_freq(word, [70000.0; 10]) == Err(large)
}

// The built-in rows, lent: the same sets and the same refusals.
pub fn over_lent_rows() -> bool {
    let rows = spec_tables::lsp_rows();
    let prev = resting_set();
    decode_in(rows, 16777216, prev) == Err(Refusal::LongIndex)
        && decode_in(rows, 66051, prev).is_ok_and(|set| set[0] == 2861.0 && set[9] == 27146.0)
}
