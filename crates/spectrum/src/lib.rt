// The spectrum of a frame (request E2): its lines, quantised, held apart and turned into the filters of the four subframes.
#![tactic(auto)]

ghost use Rattle.std.specs.Prelude.{◌≡◌};
ghost use Rattle.float.specs.Lines.{as_lines};
ghost use Rattle.spec_tables.specs.Codebook.{lsp_rows};
ghost use Rattle.spec_lsp.specs.Quantise.{as_quantised};
ghost use Rattle.stability.specs.Stability.{as_stabilised};
ghost use Rattle.lsp_filter.specs.Polynomial.{as_lpc};
ghost use Rattle.frame_parts.specs.Four.{four_of};
ghost use Rattle.frame_parts.specs.inner.Told.{Told};
ghost use Rattle.spectrum.specs.Lines.{given, lines, stabilised};
ghost use Rattle.spectrum.specs.Filters.{filter_of, filters, joined};
ghost use Rattle.spectrum.specs.inner.Spectrum.{done_spectrum, spectrum};

use float::status::Refusal;
use spec_lsp::quantise;
use spec_lsp::quantise::Quantised;
use stability::Stabilised;

// Half of a frame's answer: what its spectrum gives.
#[derive(Drop)]
pub struct Spectrum {
    pub index: u32,
    pub set: [f32; 10],
    pub lines: [f32; 10],
    pub a: [f32; 44],
}

// ---- lines and stability

// What is quantised: the lines of a filter as frequencies, or the decoded set where it has none.
#[tactic(auto, using(crate::proofs::Given::cases))]
fn given_of(a: [f32; 11], set: [f32; 10]) -> Result<[f32; 10], Refusal>
    ensures { as_lines result ≡ given a set }
{
    match lsp::lpc_to_lsp(a) {
        Ok(cosines) => convert::lsp_cosines_to_freq(cosines),
        Err(Refusal::NoLines) => Ok(set),
        Err(refusal) => Err(refusal),
    }
}

// The index of a filter's lines after the decoded set, and the set that the decoder makes of it, over rows that the caller lends. Out of line,
// here and in `spectrum_of`, so that a frame gives back the room of one half before it takes the next one's.
#[inline(never)]
#[tactic(auto, using(float::proofs::Refusal::exits, crate::proofs::Lines::parts), unfolding(crate::specs::Lines::lines))]
pub fn lines_in(rows: &[i16; 2560], a: [f32; 11], set: [f32; 10]) -> Result<Quantised, Refusal>
    ensures { as_quantised result ≡ lines rows.now a set }
{
    quantise::quantise_in(rows, given_of(a, set)?, set)
}

// The same over the built-in rows.
pub fn lines_of(a: [f32; 11], set: [f32; 10]) -> Result<Quantised, Refusal>
    ensures { as_quantised result ≡ lines lsp_rows a set }
{
    lines_in(spec_tables::lsp_rows(), a, set)
}

// The cosines of a decoded set, held apart.
#[tactic(auto, using(float::proofs::Refusal::exits, crate::proofs::Lines::parts), unfolding(crate::specs::Lines::stabilised))]
fn stabilise(set: [f32; 10], spacing_hz: f32) -> Result<Stabilised, Refusal>
    ensures { as_stabilised result ≡ stabilised set spacing_hz }
{
    stability::enforce_lsp_stability(convert::lsp_freq_to_cosines(set)?, spacing_hz)
}

// ---- filters

#[tactic(auto, using(float::proofs::Refusal::exits, crate::proofs::Lines::parts), unfolding(crate::specs::Filters::filter_of))]
fn filter_of(last: [f32; 10], cosines: [f32; 10], s: usize) -> Result<[f32; 11], Refusal>
    ensures { as_lpc result ≡ filter_of last cosines s }
{
    lsp_filter::lsp_to_lpc(lsp_filter::interpolate_lsp(s, last, cosines)?)
}

#[tactic(auto, using(frame_parts::proofs::Told::tells, crate::proofs::Lines::parts), unfolding(crate::specs::Filters::filters))]
fn filters_of(last: [f32; 10], cosines: [f32; 10]) -> Result<[[f32; 11]; 4], Refusal>
    ensures { Told (λ f. f.status) four_of result (filters last cosines) }
{
    Ok([
        filter_of(last, cosines, 0)?,
        filter_of(last, cosines, 1)?,
        filter_of(last, cosines, 2)?,
        filter_of(last, cosines, 3)?,
    ])
}

// Four filters one after the other.
fn join(filters: &[[f32; 11]; 4]) -> [f32; 44]
    ensures { result ≡ joined (four_of filters.now) }
{
    *filters.as_flattened().as_array().unwrap()
}

// ---- the half

// The spectrum of a frame, from what its lines answered and after the last frame's cosines: stability and filters. Refused lines refuse it.
#[inline(never)]
#[tactic(auto, using(frame_parts::proofs::Told::tells, crate::proofs::Lines::parts), unfolding(crate::specs::inner::Spectrum::spectrum))]
pub fn spectrum_of(
    l: Result<Quantised, Refusal>,
    last: [f32; 10],
    spacing_hz: f32,
) -> Result<Spectrum, Refusal>
    ensures { Told (λ s. s.status) done_spectrum result (spectrum (as_quantised l) last spacing_hz) }
{
    let Quantised { index, set } = l?;
    let lines = stabilise(set, spacing_hz)?.cosines;
    let a = join(&filters_of(last, lines)?);
    Ok(Spectrum {
        index,
        set,
        lines,
        a,
    })
}
