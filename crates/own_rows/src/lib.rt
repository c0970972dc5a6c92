// Code rows that the caller lends (request E5): a row of them, and the operations over them. Rows are 2,560 numbers; what a load has
// passed is not tested again.
#![tactic(auto)]

ghost use Rattle.std.specs.Prelude.{◌≡◌, [], ◌∷◌, length, IfOk};
ghost use Rattle.float.specs.Answered.{status_of};
ghost use Rattle.float.specs.Lines.{as_lines};
ghost use Rattle.float.specs.Refusal.{first};
ghost use Rattle.spec_lsp.specs.Quantise.{as_quantised};
ghost use Rattle.frame.specs.Frame.{as_frame};
ghost use Rattle.own_rows.specs.Row.{other_length, Chooses, place_in, row_place, row_part, row_address, done_place, as_place};
ghost use Rattle.own_rows.specs.Own.{quantise_in, decode_in, code_frame_in};

use float::status::Refusal;
use frame::{Coder, Frame};
use spec_lsp::quantise::Quantised;
use spec_lsp::{decode, quantise};
use spec_tables::LspBand;

// Where a row stands among its caller's numbers, and how many it has.
#[derive(Clone, Copy, Debug, PartialEq, Eq)]
pub struct RowPlace {
    pub start: usize,
    pub count: usize,
}

// Lent rows are 2,560 numbers.
fn all_rows(rows: &[i16]) -> Result<&[i16; 2560], Refusal>
    ensures status { status_of result ≡ first (other_length (length rows.now) ∷ []) }
    ensures rows { IfOk result (λ all. all.now ≡ rows.now) }
{
    rows.as_array::<2560>().ok_or(Refusal::Length)
}

// A band by its number. No `TryFrom`: that would stand beside the enum, and spec_tables knows no refusal.
fn band_of(band: u32) -> Result<LspBand, Refusal>
    ensures { Chooses band result }
{
    match band {
        0 => Ok(LspBand::Band0),
        1 => Ok(LspBand::Band1),
        2 => Ok(LspBand::Band2),
        _ => Err(Refusal::Choice),
    }
}

fn place_in(band: LspBand, index: u8) -> RowPlace
    ensures { done_place result ≡ place_in band index }
{
    RowPlace {
        start: band.row_place(index),
        count: band.start_and_length().length,
    }
}

// Where row `index` of a band lies in lent rows. The first refusal due: 1 for another length, then 2 for a band above 2 or an index
// above 255.
#[tactic(auto, using(crate::proofs::Places::places))]
pub fn row(rows: &[i16], band: u32, index: u32) -> Result<RowPlace, Refusal>
    ensures { as_place result ≡ row_place rows.now band index }
{
    all_rows(rows)?;
    let band = band_of(band)?;
    let Ok(index) = u8::try_from(index) else {
        return Err(Refusal::Choice);
    };
    Ok(place_in(band, index))
}

// The row itself, as the part of the lent buffer that it occupies; an empty part where `row` refuses.
pub fn row_part(rows: &[i16], band: u32, index: u32) -> &[i16]
    ensures part { result.now ≡ row_part rows.now band index }
    ensures address { result.ref_ptr ≡ row_address rows.entry.ref_ptr rows.now band index }
{
    match row(rows, band, index) {
        Ok(place) => &rows[place.start..place.start + place.count],
        Err(_) => &rows[..0],
    }
}

// The quantiser over lent rows.
#[tactic(auto, using(float::proofs::Refusal::exits), unfolding(crate::specs::Own::quantise_in))]
pub fn quantise_lsp_freq_in(
    rows: &[i16],
    p: [f32; 10],
    prev: [f32; 10],
) -> Result<Quantised, Refusal>
    ensures { as_quantised result ≡ quantise_in rows.now p prev }
{
    quantise::quantise_in(all_rows(rows)?, p, prev)
}

// The decoder over lent rows.
#[tactic(auto, using(float::proofs::Refusal::exits), unfolding(crate::specs::Own::decode_in))]
pub fn decode_lsp_freq_in(rows: &[i16], index: u32, prev: [f32; 10]) -> Result<[f32; 10], Refusal>
    ensures { as_lines result ≡ decode_in rows.now index prev }
{
    decode::decode_in(all_rows(rows)?, index, prev)
}

// One frame over lent rows. On a refusal the coder is as it was.
#[tactic(auto, using(float::proofs::Refusal::exits), unfolding(crate::specs::Own::code_frame_in))]
pub fn code_frame_in(
    rows: &[i16],
    coder: Coder,
    samples: &[i16],
    spacing_hz: f32,
) -> Result<Frame, Refusal>
    ensures { as_frame coder result ≡ code_frame_in rows.now coder samples.now spacing_hz }
{
    frame::code_in(all_rows(rows)?, coder, samples, spacing_hz)
}
