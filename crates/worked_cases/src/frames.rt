// Frames whole, from a new coder, and what refuses one. The coder is the caller's own: a refusal leaves it as it was.
ghost use Rattle.std.specs.Prelude.{◌<◌};

use crate::lists;
use float::status::Refusal;
use frame::{Coder, Frame};
use pitch::HnsParams;
use spec_lsp::quantise::Quantised;
use spec_lsp::resting::resting_set;
use std::array;

// How far apart the lines are held, in Hz.
const SPACING: f32 = 31.25;

// A subframe's lag, and its factor's pattern.
type Setting = (u32, u32);

// Shaping that is off.
const OFF: Setting = (18, 0);

// 7i² + 13i modulo 2001, around 0.
fn parabola() -> [i16; 360] {
    array::from_fn(|i| ((7 * i + 13) * i % 2001) as i16 - 1000)
}

// 9000 and −4000 side by side, 40 samples apart, over a hum of −30 to 30.
fn pulse(i: usize) -> i16
    requires { i < 360 }
{
    let hum = (37 * i % 61) as i16 - 30;
    match i % 40 {
        0 => hum + 9000,
        1 => hum - 4000,
        _ => hum,
    }
}

fn pulses() -> [i16; 360] {
    array::from_fn(pulse)
}

// Both ends of sixteen bits, seven samples each.
fn square() -> [i16; 360] {
    array::from_fn(|i| if i / 7 % 2 == 0 { i16::MIN } else { i16::MAX })
}

// Every subframe has its setting.
fn is_shaped(shaping: &[HnsParams; 4], settings: [Setting; 4]) -> bool {
    shaping.iter().zip(&settings).all(|(s, (lag, factor))| s.lag == *lag
        && float::same_bits(s.beta, *factor))
}

// Index, lags, settings and the hash of the filters.
fn is_coded(
    answer: Result<Frame, Refusal>,
    index: u32,
    lags: [u32; 2],
    settings: [Setting; 4],
    hash: u64,
) -> bool {
    answer.is_ok_and(|f| {
        f.index == index
            && f.pitch == lags
            && is_shaped(&f.shaping, settings)
            && lists::hash_of(&f.a) == hash
    })
}

// A first frame.
fn coded(samples: [i16; 360]) -> Result<Frame, Refusal> {
    frame::code_frame(Coder::new(), &samples, SPACING)
}

fn silence(coder: Coder, spacing_hz: f32) -> Result<Frame, Refusal> {
    frame::code_frame(coder, &[0; 360], spacing_hz)
}

pub fn zeros() -> bool {
    is_coded(
        silence(Coder::new(), SPACING),
        11767742,
        [18, 18],
        [OFF; 4],
        0x3415_a8fa_87a4_55f7,
    )
}

pub fn zeros_again() -> bool {
    is_coded(
        silence(Coder::new(), SPACING).and_then(|before| silence(before.coder, SPACING)),
        11505325,
        [18, 18],
        [OFF; 4],
        0xfe3f_543f_156f_196b,
    )
}

pub fn of_parabola() -> bool {
    is_coded(
        coded(parabola()),
        12876221,
        [92, 44],
        [OFF; 4],
        0x4e2a_4253_37d8_5ab9,
    )
}

fn is_pulses(answer: Result<Frame, Refusal>) -> bool {
    is_coded(
        answer,
        14390718,
        [40, 40],
        [OFF, (40, 0x3e9f_a854), (40, 0x3ea0_0000), (40, 0x3ea0_0000)],
        0xeead_d5cc_0934_357e,
    )
}

pub fn of_pulses() -> bool {
    is_pulses(coded(pulses()))
}

// Over lent rows it has the same answer: so it has over the built-in ones.
pub fn pulses_over(rows: &[i16]) -> bool {
    is_pulses(own_rows::code_frame_in(rows, Coder::new(), &pulses(), SPACING))
}

pub fn of_square() -> bool {
    is_coded(
        coded(square()),
        7613739,
        [28, 28],
        [OFF, (28, 0x3ea0_0000), (28, 0x3ea0_0000), (28, 0x3e9f_ed04)],
        0x87a2_e4df_2bfd_42a0,
    )
}

// 1, 0, 1, 0 and so on: both sides' roots coincide, and the filter has no ten lines.
fn without_lines() -> [f32; 11] {
    [1.0, 0.0, 1.0, 0.0, 1.0, 0.0, 1.0, 0.0, 1.0, 0.0, 1.0]
}

pub fn at_rest() -> bool {
    let set = resting_set();
    spectrum::lines_of(without_lines(), set) == Ok(Quantised { index: 0, set })
}

// The set that a frame of the parabola leaves.
pub fn after_a_set() -> bool {
    let set = [
        2173.0, 5380.0, 9078.0, 11170.0, 14478.0, 17742.0, 20530.0, 23365.0, 26290.0, 29516.0,
    ];
    spectrum::lines_of(without_lines(), set).is_ok_and(|lines| lines.index == 12812705)
}

// Every memory is a NaN, and so is the spacing.
pub fn length_first() -> bool {
    let nan = f32::NAN;
    let coder = Coder {
        set: [nan; 10],
        lines: [nan; 10],
        x_mem: [nan; 10],
        f_mem: [nan; 10],
        weighted: [nan; 145],
    };
    refuses(coder, &[0; 359], nan, Refusal::FrameLength)
        && refuses(coder, &[0; 361], nan, Refusal::FrameLength)
}

fn refuses(coder: Coder, samples: &[i16], spacing_hz: f32, why: Refusal) -> bool {
    frame::code_frame(coder, samples, spacing_hz).err() == Some(why)
}

// The lines are taken before the spacing.
pub fn set_before_spacing() -> bool {
    let mut coder = Coder::new();
    coder.set[0] = 70000.0;
    refuses(coder, &[0; 360], f32::NAN, Refusal::OutOfRange)
}

// The spacing before the last cosines.
pub fn spacing_before_cosines() -> bool {
    let coder = Coder {
        lines: [f32::NAN; 10],
        ..Coder::new()
    };
    refuses(coder, &[0; 360], 401.0, Refusal::OutOfRange)
}

pub fn minus_zero_taken() -> bool {
    silence(Coder::new(), -0.0).is_ok()
}

pub fn infinite_past() -> bool {
    let mut coder = Coder::new();
    coder.weighted[0] = f32::INFINITY;
    refuses(coder, &[0; 360], SPACING, Refusal::NotFinite)
}

// Five memories that differ.
fn used() -> Coder {
    Coder {
        set: [5000.0; 10],
        lines: [0.5; 10],
        x_mem: [1.0; 10],
        f_mem: [2.0; 10],
        weighted: [3.0; 145],
    }
}

// Before any stage, and after all of them. An `Err` has no frame and no coder, and a coder goes by value: that the memories are
// as they were is said by the types, and the doors, which lend them, are held to it in `door_play`.
pub fn refusal_keeps() -> bool {
    refuses(used(), &[0; 359], SPACING, Refusal::FrameLength)
        && refuses(used(), &[0; 360], 401.0, Refusal::OutOfRange)
}

// Too few rows, and too few samples, which nobody looks at then. The memories, as above, are the types' to keep.
pub fn refused_over(rows: &[i16]) -> bool {
    own_rows::code_frame_in(rows, used(), &[0; 359], SPACING).err() == Some(Refusal::Length)
}
