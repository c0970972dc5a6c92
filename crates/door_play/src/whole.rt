// The doors of a whole frame, with the coder's memories.
use crate::buffers;
use crate::buffers::{MARK, MARKS};
use frame::{Coder, Frame};

// Pulses 42 to 46 samples apart over a small constant: the halves differ in their lags, the subframes in theirs and in their factors.
// One is among the frame's last ten samples, so that the filter's memories are not constant.
fn samples() -> [i16; 360] {
    let mut x = [25; 360];
    x[72] = 8500;
    x[117] = 7000;
    x[159] = 6000;
    x[204] = 5000;
    x[248] = 7500;
    x[294] = 4500;
    x[338] = 4000;
    x
}

// Five memories, all different; two that were swapped would show in the index, in the filters or in the first factor.
fn memories() -> Coder {
    Coder {
        set: buffers::frequencies(),
        lines: buffers::cosines(),
        x_mem: [20.0; 10],
        f_mem: [10.0; 10],
        weighted: [5.0; 145],
    }
}

// What is lent for a frame: a coder's memories, and room for the answers.
#[derive(Clone, Copy, PartialEq)]
struct Lent {
    coder: Coder,
    index: u32,
    pitch: [u32; 2],
    lag: [u32; 4],
    factor: [f32; 4],
    a: [f32; 44],
}

// A coder's memories, with marked answers.
impl From<Coder> for Lent {
    fn from(coder: Coder) -> Self {
        Self {
            coder,
            index: 77,
            pitch: [77; 2],
            lag: [77; 4],
            factor: [MARK; 4],
            a: [MARK; 44],
        }
    }
}

// What a coded frame leaves.
impl From<Frame> for Lent {
    fn from(frame: Frame) -> Self {
        let Frame {
            index,
            pitch,
            shaping,
            a,
            coder,
        } = frame;
        Self {
            coder,
            index,
            pitch,
            lag: shaping.map(|setting| setting.lag),
            factor: shaping.map(|setting| setting.beta),
            a,
        }
    }
}

impl Lent {
    // The door over the built-in rows.
    fn code(&mut self, x: &[i16]) -> u32 {
        c_api_frame::g7231_bare_code_frame(
            &mut self.coder.set,
            &mut self.coder.lines,
            &mut self.coder.x_mem,
            &mut self.coder.f_mem,
            &mut self.coder.weighted,
            x,
            31.25,
            &mut self.index,
            &mut self.pitch,
            &mut self.lag,
            &mut self.factor,
            &mut self.a,
        )
    }

    // The door over lent rows.
    fn code_in(&mut self, rows: &[i16], x: &[i16]) -> u32 {
        c_api_rows::g7231_bare_code_frame_in(
            rows,
            &mut self.coder.set,
            &mut self.coder.lines,
            &mut self.coder.x_mem,
            &mut self.coder.f_mem,
            &mut self.coder.weighted,
            x,
            31.25,
            &mut self.index,
            &mut self.pitch,
            &mut self.lag,
            &mut self.factor,
            &mut self.a,
        )
    }
}

pub fn code() -> bool {
    let x = samples();
    buffers::hold(
        |x, lent| lent.code(x),
        [(&x[..359], 8)],
        &x[..],
        Lent::from(memories()),
        frame::code_frame(memories(), &x, 31.25).map(Lent::from),
    )
}

// Over rows of one number the frame has another index than over the built-in ones. With 2,559 numbers and 359 samples the rows refuse
// it.
pub fn code_in() -> bool {
    let x = samples();
    let rows = [500; 2560];
    let own = own_rows::code_frame_in(&rows, memories(), &x, 31.25);
    let built_in = frame::code_frame(memories(), &x, 31.25);
    let other = own.map(|frame| frame.index) != built_in.map(|frame| frame.index);
    other
        & buffers::hold(
            |(rows, x), lent| lent.code_in(rows, x),
            [((&rows[..2559], &x[..359]), 1)],
            (&rows[..], &x[..]),
            Lent::from(memories()),
            own.map(Lent::from),
        )
}

// It refuses nothing.
pub fn start() -> bool {
    buffers::hold(
        |_, coder| {
            c_api_frame::g7231_bare_new_coder(
                &mut coder.set,
                &mut coder.lines,
                &mut coder.x_mem,
                &mut coder.f_mem,
                &mut coder.weighted,
            )
        },
        [],
        (),
        Coder {
            set: MARKS,
            lines: MARKS,
            x_mem: MARKS,
            f_mem: MARKS,
            weighted: [MARK; 145],
        },
        Ok(Coder::new()),
    )
}
