// One call a frame (request E2): the stages of document 01 in a chain. The first of them that refuses refuses the frame.
#![tactic(auto)]

ghost use Rattle.std.specs.Prelude.{◌≡◌};
ghost use Rattle.spec_tables.specs.Codebook.{lsp_rows};
ghost use Rattle.frame_parts.specs.Four.{four_of};
ghost use Rattle.frame_parts.specs.inner.Told.{Told};
ghost use Rattle.frame.specs.Coder.{new_coder};
ghost use Rattle.frame.specs.Windows.{windows};
ghost use Rattle.frame.specs.Frame.{as_frame, code_frame};

use float::status::Refusal;
use pitch::HnsParams;
use spec_lsp::resting;
use spectrum::Spectrum;
use voice::Voice;

// What a coder keeps between frames.
#[derive(Clone, Copy, PartialEq)]
pub struct Coder {
    // the line frequencies that the decoder has
    pub set: [f32; 10],
    // the stabilised cosines of the last frame
    pub lines: [f32; 10],
    // the weighting filter's last inputs and outputs, most recent first
    pub x_mem: [f32; 10],
    pub f_mem: [f32; 10],
    // the weighted speech before the frame, oldest first
    pub weighted: [f32; 145],
}

// One frame coded: what is sent of it, its four filters one after the other, and the memories after it.
#[derive(Clone, Copy, PartialEq)]
pub struct Frame {
    pub index: u32,
    pub pitch: [u32; 2],
    pub shaping: [HnsParams; 4],
    pub a: [f32; 44],
    pub coder: Coder,
}

impl Coder {
    // A coder before its first frame.
    pub fn new() -> Self
        ensures { result ≡ new_coder }
    {
        let set = resting::resting_set();
        let lines = convert::lsp_freq_to_cosines(set).unwrap_or([0.0; 10]);
        Self {
            set,
            lines,
            x_mem: [0.0; 10],
            f_mem: [0.0; 10],
            weighted: [0.0; 145],
        }
    }
}

// The filter of each window.
#[tactic(auto, using(frame_parts::proofs::Told::tells, crate::proofs::Windows::analysed), unfolding(crate::specs::Windows::windows))]
fn windows_of(x: &[f32; 360]) -> Result<[[f32; 11]; 4], Refusal>
    ensures { Told (λ w. w.status) four_of result (windows x.now) }
{
    Ok([
        lpc::lpc_analysis(&x[0..180])?.a,
        lpc::lpc_analysis(&x[60..240])?.a,
        lpc::lpc_analysis(&x[120..300])?.a,
        lpc::lpc_analysis(&x[180..360])?.a,
    ])
}

// A frame of 360 samples. Out of line, so that a frame of another length is refused before the room for all stages is made.
#[inline(never)]
#[tactic(auto, using(crate::proofs::Halves::stages), unfolding(crate::specs::Frame::code_frame))]
fn coded(
    rows: &[i16; 2560],
    coder: Coder,
    samples: &[i16; 360],
    spacing_hz: f32,
) -> Result<Frame, Refusal>
    ensures { as_frame coder result ≡ code_frame rows.now coder samples.now spacing_hz }
{
    let x = frame_parts::to_singles(samples);
    let windows = windows_of(&x)?;
    let quantised = spectrum::lines_in(rows, windows[3], coder.set);
    let Spectrum {
        index,
        set,
        lines,
        a,
    } = spectrum::spectrum_of(quantised, coder.lines, spacing_hz)?;
    let Voice {
        pitch,
        shaping,
        x_mem,
        f_mem,
        weighted,
    } = voice::voice_of(coder.x_mem, coder.f_mem, &coder.weighted, &windows, &x)?;
    let coder = Coder {
        set,
        lines,
        x_mem,
        f_mem,
        weighted,
    };
    Ok(Frame {
        index,
        pitch,
        shaping,
        a,
        coder,
    })
}

// One frame over rows that the caller lends: 60 samples before it, its 240, 60 after it. On a refusal the coder is as it was.
#[tactic(auto, using(float::proofs::Refusal::exits), unfolding(crate::specs::Frame::code_frame))]
pub fn code_in(
    rows: &[i16; 2560],
    coder: Coder,
    samples: &[i16],
    spacing_hz: f32,
) -> Result<Frame, Refusal>
    ensures { as_frame coder result ≡ code_frame rows.now coder samples.now spacing_hz }
{
    let samples = samples.as_array().ok_or(Refusal::FrameLength)?;
    coded(rows, coder, samples, spacing_hz)
}

// The same over the built-in rows.
pub fn code_frame(coder: Coder, samples: &[i16], spacing_hz: f32) -> Result<Frame, Refusal>
    ensures { as_frame coder result ≡ code_frame lsp_rows coder samples.now spacing_hz }
{
    code_in(spec_tables::lsp_rows(), coder, samples, spacing_hz)
}
