// What one subframe is filtered with.
ghost use Rattle.std.specs.Prelude.{◌≤◌};
ghost use Rattle.harmonic_history.specs.History.{places};

use weighting::WeightingTaps;

// Predictor, weighting taps, and the lag and factor of harmonic noise shaping.
#[derive(Drop)]
pub struct Settings {
    pub aq: [f32; 11],
    pub taps: WeightingTaps,
    pub lag: usize,
    pub beta: f32,
    // the history reaches back as far as the lag
    pub ghost reached: { lag ≤ places },
}
