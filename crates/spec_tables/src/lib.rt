// The Recommendation's tables that the analysis reads, and the three bands of its line quantiser. They have the Rust's names.
// The two long ones are statics, which have an address: they are lent, and nobody copies them.
#![tactic(auto)]

ghost use Rattle.std.specs.Prelude.{◌≡◌, ◌+◌, ◌*◌, ◌≤◌, length, take};
ghost use Rattle.spec_tables.specs.Band.{place_of, first_row, all_bands};
ghost use Rattle.spec_tables.specs.Codebook.{lsp_rows};
ghost use Rattle.spec_tables.specs.Rows.{row_from, row, padded};
ghost use Rattle.spec_tables.specs.Tables.{dc_freq, lag_window, perceptual_zero, perceptual_pole};
ghost use Rattle.spec_tables.specs.Window.{hamming_window};

pub mod codebook;
pub mod window;

// Start and length of each band, band 0 first.
pub const LSP_BAND_INFO: [i16; 6] = [0, 3, 3, 3, 6, 4];

// The resting set of ten frequencies.
pub const LSP_DC_PREDICTED_FREQ_Q15: [i16; 10] = [
    3131, 4721, 7690, 10806, 13872, 16495, 19752, 22260, 25484, 27718,
];

// What autocorrelation sums 1 to 10 are multiplied by, in units of 1/32,768.
pub const LPC_BINOMIAL_LAG_WINDOW_Q15: [i16; 10] = [
    32749, 32695, 32604, 32477, 32315, 32118, 31887, 31622, 31324, 30995,
];

// The weighting filter's zeros and poles, in units of 1/32,768.
pub const PERCEPTUAL_ZERO_Q15: [i16; 10] = [
    29491, 26542, 23888, 21499, 19349, 17414, 15673, 14106, 12695, 11425,
];

pub const PERCEPTUAL_POLE_Q15: [i16; 10] = [16384, 8192, 4096, 2048, 1024, 512, 256, 128, 64, 32];

// Each table as a function, with what it holds as its contract: a const has no clause.
pub fn lsp_rows() -> &'static [i16; 2560]
    ensures { result.now ≡ lsp_rows }
{
    &codebook::LSP_CODEBOOK
}

pub fn lpc_hamming_window() -> &'static [i16; 180]
    ensures { result.now ≡ hamming_window }
{
    &window::LPC_HAMMING_WINDOW_Q15
}

pub fn lsp_dc_predicted_freq() -> [i16; 10]
    ensures { result ≡ dc_freq }
{
    LSP_DC_PREDICTED_FREQ_Q15
}

pub fn lpc_binomial_lag_window() -> [i16; 10]
    ensures { result ≡ lag_window }
{
    LPC_BINOMIAL_LAG_WINDOW_Q15
}

pub fn perceptual_zero() -> [i16; 10]
    ensures { result ≡ perceptual_zero }
{
    PERCEPTUAL_ZERO_Q15
}

pub fn perceptual_pole() -> [i16; 10]
    ensures { result ≡ perceptual_pole }
{
    PERCEPTUAL_POLE_Q15
}

// A band of the line quantiser.
#[derive(Clone, Copy, Debug, PartialEq, Eq)]
pub enum LspBand {
    Band0,
    Band1,
    Band2,
}

// Where a band's frequencies stand among the ten, and how many there are.
#[derive(Drop)]
pub struct BandPlace {
    pub start: usize,
    pub length: usize,
}

impl LspBand {
    pub const ALL: [LspBand; 3] = [LspBand::Band0, LspBand::Band1, LspBand::Band2];

    // The same as a value, with what it holds as its contract.
    pub fn in_order() -> [LspBand; 3]
        ensures { result ≡ all_bands }
    {
        LspBand::ALL
    }

    pub fn start_and_length(self) -> BandPlace
        ensures { result ≡ place_of self }
    {
        match self {
            LspBand::Band0 => BandPlace {
                start: LSP_BAND_INFO[0] as usize,
                length: LSP_BAND_INFO[1] as usize,
            },
            LspBand::Band1 => BandPlace {
                start: LSP_BAND_INFO[2] as usize,
                length: LSP_BAND_INFO[3] as usize,
            },
            LspBand::Band2 => BandPlace {
                start: LSP_BAND_INFO[4] as usize,
                length: LSP_BAND_INFO[5] as usize,
            },
        }
    }

    // Where the band's rows begin among the 2,560 numbers: every band has 256 rows, as wide as the band.
    #[tactic(auto, using(crate::proofs::Bands::first_fits))]
    pub fn first_row(self) -> usize
        ensures { result ≡ first_row self }
    {
        let place = self.start_and_length();
        256 * place.start
    }

    // The place of row `index` among the 2,560 numbers.
    #[tactic(auto, using(crate::proofs::Bands::index_fits, crate::proofs::Bands::place_fits))]
    pub fn row_place(self, index: u8) -> usize
        ensures { result ≡ first_row self + index * (place_of self).length }
    {
        let first = self.first_row();
        let place = self.start_and_length();
        first + usize::from(index) * place.length
    }
}

// A row as four numbers, zeros last.
#[tactic(auto, unfolding(crate::specs::Rows::padded))]
fn copied(row: &[i16]) -> [i16; 4]
    requires { length row.now ≤ 4 }
    ensures { result ≡ padded row.now }
{
    let mut out = [0i16; 4];
    out[..row.len()].copy_from_slice(row);
    out
}

// Row `index` of a band copied out, zeros after it, of rows that the caller lends: as many of the four as the band is wide are the row.
#[tactic(auto, using(crate::proofs::Rows::unpadded, crate::proofs::Rows::row_length), unfolding(crate::specs::Rows::row_from))]
pub fn lsp_codebook_entry(rows: &[i16; 2560], band: LspBand, index: u8) -> [i16; 4]
    ensures four { result ≡ padded (row rows.now band index) }
    ensures row { take (place_of band).length result ≡ row rows.now band index }
{
    let place = band.start_and_length();
    let at = band.row_place(index);
    copied(&rows[at..at + place.length])
}
