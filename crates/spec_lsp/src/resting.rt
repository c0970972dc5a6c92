// The resting set, with which both ends of a line begin.
ghost use Rattle.std.specs.Prelude.{◌≡◌};
ghost use Rattle.spec_lsp.specs.Resting.{resting};

// The ten frequencies of the table as singles.
pub fn resting_set() -> [f32; 10]
    ensures { result ≡ resting }
{
    spec_tables::lsp_dc_predicted_freq().map(f32::from)
}
