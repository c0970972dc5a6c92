// The decoder of a line set (§2.6, steps 1 and 2): the previous set predicts, and the rows that the index names are added.
ghost use Rattle.std.specs.Prelude.{◌≡◌, ◌++◌, take};
ghost use Rattle.spec_tables.specs.Codebook.{lsp_rows};
ghost use Rattle.float.specs.Answered.{status_of};
ghost use Rattle.float.specs.Lines.{as_lines};
ghost use Rattle.float.specs.Refusal.{first};
ghost use Rattle.spec_lsp.specs.Decode.{predicted, rebuilt, row_numbers, decoded, decode_refusals, decode_lsp_freq};

use float::status::Refusal;
use spec_tables::LspBand;
use std::array;

// What the previous set foretells of a frequency, its resting value taken off.
#[tactic(auto, using(crate::proofs::Constants::three_eighths), unfolding(crate::specs::Decode::predicted))]
pub fn predict(prev: f32, dc: f32) -> f32
    ensures { result ≡ predicted prev dc }
{
    0.375 * (prev - dc)
}

// A frequency from its previous value, its resting value and its row's number.
#[tactic(auto, unfolding(crate::specs::Decode::rebuilt))]
fn rebuild(prev: f32, dc: f32, number: f32) -> f32
    ensures { result ≡ rebuilt prev dc number }
{
    predict(prev, dc) + dc + number
}

// Rows of three, three and four numbers, one after the other: each number by its place, where a loop would want a buffer and three ranges.
fn joined(a: [i16; 4], b: [i16; 4], c: [i16; 4]) -> [i16; 10]
    ensures { result ≡ take 3 a ++ take 3 b ++ take 4 c }
{
    [a[0], a[1], a[2], b[0], b[1], b[2], c[0], c[1], c[2], c[3]]
}

// The ten numbers of the three rows that an index names.
#[tactic(auto, unfolding(crate::specs::Decode::row_numbers))]
fn row_numbers(rows: &[i16; 2560], index: u32) -> [i16; 10]
    ensures { result ≡ row_numbers rows.now index }
{
    let [first, second, third] = lsp_index::index_bytes(index);
    let a = spec_tables::lsp_codebook_entry(rows, LspBand::Band0, first);
    let b = spec_tables::lsp_codebook_entry(rows, LspBand::Band1, second);
    let c = spec_tables::lsp_codebook_entry(rows, LspBand::Band2, third);
    joined(a, b, c)
}

// The set that an index makes of the previous one.
pub fn decode_set(rows: &[i16; 2560], index: u32, prev: [f32; 10]) -> [f32; 10]
    ensures { result ≡ decoded rows.now index prev }
{
    let dc = spec_tables::lsp_dc_predicted_freq();
    let numbers = row_numbers(rows, index);
    array::from_fn(|i| rebuild(prev[i], f32::from(dc[i]), f32::from(numbers[i])))
}

// The first refusal due: what the index is refused with; then 5 and 6 on the previous set.
#[tactic(auto, using(crate::proofs::Constants::most, lsp_index::proofs::Bytes::split_status))]
fn check_index_and_set(index: u32, prev: [f32; 10]) -> Result<(), Refusal>
    ensures { status_of result ≡ first (decode_refusals index prev) }
{
    lsp_index::split_lsp_index(index)?; // before the previous set is looked at
    float::check_bounded(&prev, 65536.0)
}

// The decoder over rows that the caller lends.
#[tactic(auto, using(float::proofs::Refusal::exits), unfolding(crate::specs::Decode::decode_lsp_freq))]
pub fn decode_in(rows: &[i16; 2560], index: u32, prev: [f32; 10]) -> Result<[f32; 10], Refusal>
    ensures { as_lines result ≡ decode_lsp_freq rows.now index prev }
{
    check_index_and_set(index, prev)?;
    Ok(decode_set(rows, index, prev))
}

// The same over the built-in rows.
pub fn decode_lsp_freq(index: u32, prev: [f32; 10]) -> Result<[f32; 10], Refusal>
    ensures { as_lines result ≡ decode_lsp_freq lsp_rows index prev }
{
    decode_in(spec_tables::lsp_rows(), index, prev)
}
