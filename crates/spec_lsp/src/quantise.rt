// The quantiser of a line set (§2.5): its index is what is sent, and its set is what the decoder makes of that.
ghost use Rattle.std.specs.Prelude.{◌≡◌, ◌<◌};
ghost use Rattle.float.specs.Answered.{status_of};
ghost use Rattle.float.specs.Refusal.{first};
ghost use Rattle.spec_tables.specs.Codebook.{lsp_rows};
ghost use Rattle.spec_lsp.specs.Quantise.{smaller, weight_of, nearest, weights, target, chosen, index_of};
ghost use Rattle.spec_lsp.specs.Quantise.{as_quantised, quantise_refusals, quantise_lsp_freq};

use crate::decode;
use float::status::Refusal;
use spec_tables::LspBand;
use std::array;

// The index that is sent, and the set that the decoder makes of it.
#[derive(Clone, Copy, Debug, PartialEq)]
pub struct Quantised {
    pub index: u32,
    pub set: [f32; 10],
}

// By a test, and not by `min`, which drops a NaN: of a NaN and a number the definition answers the NaN.
#[tactic(auto, unfolding(crate::specs::Quantise::smaller))]
fn smaller(x: f32, y: f32) -> f32
    ensures { result ≡ smaller x y }
{
    if y < x { y } else { x }
}

// The inverse of a gap, no gap counting as less than 1.
#[tactic(auto, using(crate::proofs::Constants::one))]
fn weight_of(gap: f32) -> f32
    ensures { result ≡ weight_of gap }
{
    1.0 / gap.max(1.0)
}

// The smaller gap to a neighbour.
#[tactic(auto, unfolding(crate::specs::Quantise::nearest))]
fn nearest(p: &[f32; 10], i: usize) -> f32
    requires { i < 10 }
    ensures { result ≡ nearest p.now i }
{
    match i {
        0 => p[1] - p[0],
        9 => p[9] - p[8],
        _ => smaller(p[i] - p[i - 1], p[i + 1] - p[i]),
    }
}

pub fn lsp_weights(p: [f32; 10]) -> [f32; 10]
    ensures { result ≡ weights p }
{
    array::from_fn(|i| weight_of(nearest(&p, i)))
}

// What the previous set does not foretell.
fn residual_target(p: [f32; 10], prev: [f32; 10]) -> [f32; 10]
    ensures { result ≡ target p prev }
{
    let dc = spec_tables::lsp_dc_predicted_freq();
    array::from_fn(|i| {
        let rest = f32::from(dc[i]);
        p[i] - rest - decode::predict(prev[i], rest)
    })
}

// The row that a band takes.

fn choose(rows: &[i16; 2560], target: &[f32; 10], weights: &[f32; 10], band: LspBand) -> u8
    ensures { result ≡ chosen rows.now target.now weights.now band }
{
    let first = band.first_row();
    let place = band.start_and_length();
    row_search::best_row(rows, first, place.length, 256, target, weights, place.start) as u8
}

#[tactic(auto, unfolding(crate::specs::Quantise::index_of))]
fn best_index(rows: &[i16; 2560], p: [f32; 10], prev: [f32; 10]) -> u32
    ensures { result ≡ index_of rows.now p prev }
{
    let t = residual_target(p, prev);
    let w = lsp_weights(p);
    lsp_index::combine_lsp_index(LspBand::in_order().map(|band| choose(rows, &t, &w, band)))
}

// The first refusal due: 5 in either set; then 6 above 65,536 in magnitude in either.
#[tactic(auto, using(crate::proofs::Constants::most))]
fn check_sets(p: [f32; 10], prev: [f32; 10]) -> Result<(), Refusal>
    ensures { status_of result ≡ first (quantise_refusals p prev) }
{
    float::check_finite(&p)?;
    float::check_finite(&prev)?; // before any magnitude is looked at
    if float::any_exceeds(&p, 65536.0) || float::any_exceeds(&prev, 65536.0) {
        return Err(Refusal::OutOfRange);
    }
    Ok(())
}

// The quantiser over rows that the caller lends.
#[tactic(auto, using(float::proofs::Refusal::exits), unfolding(crate::specs::Quantise::quantise_lsp_freq, crate::specs::Quantise::quantise_by))]
pub fn quantise_in(rows: &[i16; 2560], p: [f32; 10], prev: [f32; 10]) -> Result<Quantised, Refusal>
    ensures { as_quantised result ≡ quantise_lsp_freq rows.now p prev }
{
    check_sets(p, prev)?;
    let index = best_index(rows, p, prev);
    Ok(Quantised {
        index,
        set: decode::decode_set(rows, index, prev),
    })
}

pub fn quantise_lsp_freq(p: [f32; 10], prev: [f32; 10]) -> Result<Quantised, Refusal>
    ensures { as_quantised result ≡ quantise_lsp_freq lsp_rows p prev }
{
    quantise_in(spec_tables::lsp_rows(), p, prev)
}
