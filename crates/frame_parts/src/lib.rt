// What the stages of a frame share: its samples as singles. specs/ has its windows and subframes, and what is answered of four filters.
#![tactic(auto)]

ghost use Rattle.std.specs.Prelude.{◌≡◌};
ghost use Rattle.frame_parts.specs.Parts.{singles};

// Samples as singles.
pub fn to_singles(samples: &[i16; 360]) -> [f32; 360]
    ensures { result ≡ singles samples.now }
{
    std::array::from_fn(|i| f32::from(samples[i]))
}
