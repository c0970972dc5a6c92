// The doors of a frame, in a crate and an object file of their own: the frame calls the stages that other doors call, and in one
// object with them the compiler would no longer put a stage inside its door, which costs that door time. crates/c_api says what a
// door is.
#![tactic(auto)]

ghost use Rattle.std.specs.Prelude.{◌≡◌};
ghost use Rattle.spec_tables.specs.Codebook.{lsp_rows};
ghost use Rattle.float.specs.Answered.{status_of};
ghost use Rattle.c_api.specs.Lent.{lent, part};
ghost use Rattle.frame.specs.Coder.{new_coder};
ghost use Rattle.frame.specs.Frame.{code_frame};
ghost use Rattle.c_api_frame.specs.Frame.{coder_of, lags, factors};

use float::status::Refusal;
use frame::{Coder, Frame};

pub fn g7231_bare_new_coder(
    set: &mut [f32; 10],
    lines: &mut [f32; 10],
    x_mem: &mut [f32; 10],
    f_mem: &mut [f32; 10],
    weighted: &mut [f32; 145],
) -> u32
    ensures status { result ≡ 0 }
    ensures resting { set.new ≡ new_coder.set }
    ensures lines { lines.new ≡ new_coder.lines }
    ensures inputs { x_mem.new ≡ new_coder.x_mem }
    ensures outputs { f_mem.new ≡ new_coder.f_mem }
    ensures speech { weighted.new ≡ new_coder.weighted }
{
    let Coder {
        set: new_set,
        lines: new_lines,
        x_mem: new_in,
        f_mem: new_out,
        weighted: new_speech,
    } = Coder::new();
    *set = new_set;
    *lines = new_lines;
    *x_mem = new_in;
    *f_mem = new_out;
    *weighted = new_speech;
    0
}

// A coder as a caller lends it, five buffers.
pub fn coder_from(
    set: &[f32; 10],
    lines: &[f32; 10],
    x_mem: &[f32; 10],
    f_mem: &[f32; 10],
    weighted: &[f32; 145],
) -> Coder
    ensures { result ≡ coder_of set.now lines.now x_mem.now f_mem.now weighted.now }
{
    Coder {
        set: *set,
        lines: *lines,
        x_mem: *x_mem,
        f_mem: *f_mem,
        weighted: *weighted,
    }
}

// What a door makes of a frame: where it is done each buffer takes its part, and else holds what it held.
pub fn store_frame(
    answer: Result<Frame, Refusal>,
    set: &mut [f32; 10],
    lines: &mut [f32; 10],
    x_mem: &mut [f32; 10],
    f_mem: &mut [f32; 10],
    weighted: &mut [f32; 145],
    index: &mut u32,
    pitch: &mut [u32; 2],
    lag: &mut [u32; 4],
    factor: &mut [f32; 4],
    a: &mut [f32; 44],
) -> u32
    ensures status { result ≡ status_of answer }
    ensures decoded { set.new ≡ part (λ frame. frame.coder.set) set.old answer }
    ensures lines { lines.new ≡ part (λ frame. frame.coder.lines) lines.old answer }
    ensures inputs { x_mem.new ≡ part (λ frame. frame.coder.x_mem) x_mem.old answer }
    ensures outputs { f_mem.new ≡ part (λ frame. frame.coder.f_mem) f_mem.old answer }
    ensures speech { weighted.new ≡ part (λ frame. frame.coder.weighted) weighted.old answer }
    ensures index { index.new ≡ part (λ frame. frame.index) index.old answer }
    ensures pitch { pitch.new ≡ part (λ frame. frame.pitch) pitch.old answer }
    ensures lags { lag.new ≡ part (λ frame. lags frame.shaping) lag.old answer }
    ensures factors { factor.new ≡ part (λ frame. factors frame.shaping) factor.old answer }
    ensures filters { a.new ≡ part (λ frame. frame.a) a.old answer }
{
    match answer {
        Ok(frame) => {
            let Frame {
                index: sent,
                pitch: halves,
                shaping,
                a: filters,
                coder,
            } = frame;
            let Coder {
                set: after_set,
                lines: after_lines,
                x_mem: after_in,
                f_mem: after_out,
                weighted: after_speech,
            } = coder;
            *set = after_set;
            *lines = after_lines;
            *x_mem = after_in;
            *f_mem = after_out;
            *weighted = after_speech;
            *index = sent;
            *pitch = halves;
            *lag = shaping.map(|s| s.lag);
            *factor = shaping.map(|s| s.beta);
            *a = filters;
            0
        }
        Err(refusal) => refusal.number(),
    }
}

pub fn g7231_bare_code_frame(
    set: &mut [f32; 10],
    lines: &mut [f32; 10],
    x_mem: &mut [f32; 10],
    f_mem: &mut [f32; 10],
    weighted: &mut [f32; 145],
    samples: &[i16],
    spacing_hz: f32,
    index: &mut u32,
    pitch: &mut [u32; 2],
    lag: &mut [u32; 4],
    factor: &mut [f32; 4],
    a: &mut [f32; 44],
) -> u32
    ensures status { result ≡ (code_frame lsp_rows (coder_of set.old lines.old x_mem.old f_mem.old weighted.old) samples.now spacing_hz).status }
    ensures decoded { set.new ≡ lent result set.old (code_frame lsp_rows (coder_of set.old lines.old x_mem.old f_mem.old weighted.old) samples.now spacing_hz).coder.set }
    ensures lines { lines.new ≡ lent result lines.old (code_frame lsp_rows (coder_of set.old lines.old x_mem.old f_mem.old weighted.old) samples.now spacing_hz).coder.lines }
    ensures inputs { x_mem.new ≡ lent result x_mem.old (code_frame lsp_rows (coder_of set.old lines.old x_mem.old f_mem.old weighted.old) samples.now spacing_hz).coder.x_mem }
    ensures outputs { f_mem.new ≡ lent result f_mem.old (code_frame lsp_rows (coder_of set.old lines.old x_mem.old f_mem.old weighted.old) samples.now spacing_hz).coder.f_mem }
    ensures speech { weighted.new ≡ lent result weighted.old (code_frame lsp_rows (coder_of set.old lines.old x_mem.old f_mem.old weighted.old) samples.now spacing_hz).coder.weighted }
    ensures index { index.new ≡ lent result index.old (code_frame lsp_rows (coder_of set.old lines.old x_mem.old f_mem.old weighted.old) samples.now spacing_hz).index }
    ensures pitch { pitch.new ≡ lent result pitch.old (code_frame lsp_rows (coder_of set.old lines.old x_mem.old f_mem.old weighted.old) samples.now spacing_hz).pitch }
    ensures lags { lag.new ≡ lent result lag.old (lags (code_frame lsp_rows (coder_of set.old lines.old x_mem.old f_mem.old weighted.old) samples.now spacing_hz).shaping) }
    ensures factors { factor.new ≡ lent result factor.old (factors (code_frame lsp_rows (coder_of set.old lines.old x_mem.old f_mem.old weighted.old) samples.now spacing_hz).shaping) }
    ensures filters { a.new ≡ lent result a.old (code_frame lsp_rows (coder_of set.old lines.old x_mem.old f_mem.old weighted.old) samples.now spacing_hz).a }
{
    let coder = coder_from(set, lines, x_mem, f_mem, weighted);
    let answer = frame::code_frame(coder, samples, spacing_hz);
    store_frame(
        answer, set, lines, x_mem, f_mem, weighted, index, pitch, lag, factor, a,
    )
}
