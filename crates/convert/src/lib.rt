// The lines of a frame from cosines to frequencies and back, by the cosine rule. Frequencies are in the tables' units, of which 32,768
// make half a circle.
#![tactic(auto)]

ghost use Rattle.std.specs.Prelude.{◌≡◌};
ghost use Rattle.float.specs.Lines.{as_lines};
ghost use Rattle.convert.specs.Convert.{freq_to_cosines, cosines_to_freq};

use float::status::Refusal;

// Each frequency's cosine by the cosine rule. Refusals: 5; 6 above 65,536 in magnitude.
#[tactic(auto, using(float::proofs::Refusal::exits, crate::proofs::Bound::bounded), unfolding(crate::specs::Convert::freq_to_cosines))]
pub fn lsp_freq_to_cosines(freq: [f32; 10]) -> Result<[f32; 10], Refusal>
    ensures { as_lines result ≡ freq_to_cosines freq }
{
    float::check_bounded(&freq, 65536.0)?;
    Ok(freq.map(|f| cosine::cosine_single(cosine::step_of_frequency(f))))
}

// Each cosine's step as a frequency. Refusals: 5.
#[tactic(auto, using(float::proofs::Refusal::exits), unfolding(crate::specs::Convert::cosines_to_freq))]
pub fn lsp_cosines_to_freq(cosines: [f32; 10]) -> Result<[f32; 10], Refusal>
    ensures { as_lines result ≡ cosines_to_freq cosines }
{
    float::check_finite(&cosines)?;
    Ok(cosines.map(|c| cosine::frequency(cosine::step(c))))
}
