// One function for each operation: whether the library gives a record's answer. A record is the operation's number, what is
// given, the status and the results; a refusal's results are zeros, and memories as they were. The library's refusal is an `Err`,
// which holds neither: its number is compared, and the rest is held to zeros and to the memories that the record gives. The
// memory that `run_combined_lent` is lent is there after a refusal too, and is compared.
// The numbers are the list's own: an enum would be a third table of the same twenty.
ghost use Rattle.std.specs.Prelude.{◌≤◌};

use crate::words::Words;
use combined::CombinedMem;
use frame::{Coder, Frame};

// How many samples a record of a variable length may give.
const MOST: u32 = 505;

// The length of a record that has so many samples and so many words beside them.
fn with_samples(samples: u32, others: usize) -> Option<usize>
    requires { others ≤ 512 }
{
    if samples > MOST {
        return None;
    }
    Some(samples as usize + others)
}

// How many words a record has, by its operation.
fn length_of(record: &[u32]) -> Option<usize> {
    match record {
        [1, n, ..] => with_samples(*n, 37),
        [2, ..] => Some(23),
        [3 | 4, ..] => Some(22),
        [5, ..] => Some(33),
        [6, ..] => Some(23),
        [7, ..] => Some(24),
        [8, ..] => Some(34),
        [9, ..] => Some(23),
        [10, ..] => Some(33),
        [11, n, ..] => with_samples(*n, 123),
        [12, _, n, ..] => with_samples(*n, 7),
        [13, _, n, ..] => with_samples(*n, 9),
        [14, ..] => Some(506),
        [15, ..] => Some(96),
        [16, ..] => Some(187),
        [17, ..] => with_samples(*record.get(186)?, 429),
        [18 | 19, ..] => Some(6),
        [25, ..] => Some(179),
        _ => None,
    }
}

// The record, if an operation has one of that length.
pub fn known(record: &[u32]) -> Option<&[u32]> {
    (length_of(record) == Some(record.len())).then_some(record)
}

// Whether the library gives the record's answer.
pub fn answered(record: &[u32]) -> bool {
    let mut words = Words::new(record);
    agrees(&mut words).is_some()
}

fn agrees(words: &mut Words) -> Option<()> {
    match words.word()? {
        1 => lpc_analysis(words),
        2 => lpc_to_lsp(words),
        3 => lsp_cosines_to_freq(words),
        4 => lsp_freq_to_cosines(words),
        5 => quantise_lsp_freq(words),
        6 => decode_lsp_freq(words),
        7 => enforce_lsp_stability(words),
        8 => interpolate_lsp(words),
        9 => lsp_to_lpc(words),
        10 => weighting_taps(words),
        11 => weight_subframe(words),
        12 => open_loop_pitch(words),
        13 => harmonic_noise_shaping(words),
        14 => run_combined(words),
        15 => combined_impulse_response(words),
        16 => new_coder(words),
        17 => code_frame(words),
        18 => split_lsp_index(words),
        19 => combine_lsp_index(words),
        25 => new_filter_memory(words),
        _ => None,
    }
}

fn lpc_analysis(words: &mut Words) -> Option<()> {
    let window = words.samples(466)?;
    match lpc::lpc_analysis(&window) {
        Ok(set) => {
            words.is(0)?;
            words.are(&set.a)?;
            words.doubles_are(&set.r)?;
            words.are(&[set.k2])
        }
        Err(refusal) => words.refused(refusal),
    }
}

fn lpc_to_lsp(words: &mut Words) -> Option<()> {
    let answer = lsp::lpc_to_lsp(words.singles()?);
    words.lines(answer)
}

fn lsp_cosines_to_freq(words: &mut Words) -> Option<()> {
    let answer = convert::lsp_cosines_to_freq(words.singles()?);
    words.lines(answer)
}

fn lsp_freq_to_cosines(words: &mut Words) -> Option<()> {
    let answer = convert::lsp_freq_to_cosines(words.singles()?);
    words.lines(answer)
}

fn quantise_lsp_freq(words: &mut Words) -> Option<()> {
    let p = words.singles()?;
    let prev = words.singles()?;
    match spec_lsp::quantise::quantise_lsp_freq(p, prev) {
        Ok(sent) => {
            words.is(0)?;
            words.is(sent.index)?;
            words.are(&sent.set)
        }
        Err(refusal) => words.refused(refusal),
    }
}

fn decode_lsp_freq(words: &mut Words) -> Option<()> {
    let index = words.word()?;
    let answer = spec_lsp::decode::decode_lsp_freq(index, words.singles()?);
    words.lines(answer)
}

fn split_lsp_index(words: &mut Words) -> Option<()> {
    match lsp_index::split_lsp_index(words.word()?) {
        Ok(bands) => {
            words.is(0)?;
            for band in bands {
                words.is(u32::from(band))?;
            }
            Some(())
        }
        Err(refusal) => words.refused(refusal),
    }
}

// It refuses nothing.
fn combine_lsp_index(words: &mut Words) -> Option<()> {
    let bands = [words.byte()?, words.byte()?, words.byte()?];
    words.is(0)?;
    words.is(lsp_index::combine_lsp_index(bands))
}

fn enforce_lsp_stability(words: &mut Words) -> Option<()> {
    let cosines = words.singles()?;
    match stability::enforce_lsp_stability(cosines, words.single()?) {
        Ok(stabilised) => {
            words.is(0)?;
            words.are(&stabilised.cosines)?;
            words.is(u32::from(stabilised.converged))
        }
        Err(refusal) => words.refused(refusal),
    }
}

fn interpolate_lsp(words: &mut Words) -> Option<()> {
    let choice = words.place()?;
    let prev = words.singles()?;
    let answer = lsp_filter::interpolate_lsp(choice, prev, words.singles()?);
    words.lines(answer)
}

fn lsp_to_lpc(words: &mut Words) -> Option<()> {
    let answer = lsp_filter::lsp_to_lpc(words.singles()?);
    words.lines(answer)
}

fn weighting_taps(words: &mut Words) -> Option<()> {
    match weighting::weighting_taps(words.singles()?) {
        Ok(taps) => {
            words.is(0)?;
            words.are(&taps.wz)?;
            words.are(&taps.wp)
        }
        Err(refusal) => words.refused(refusal),
    }
}

fn weight_subframe(words: &mut Words) -> Option<()> {
    let x = words.samples(380)?;
    let wz = words.singles()?;
    let wp = words.singles()?;
    let x_mem = words.singles()?;
    let f_mem = words.singles()?;
    match weighting::weight_subframe(&x, wz, wp, x_mem, f_mem) {
        Ok(weighted) => {
            words.is(0)?;
            words.are(&weighted.x_mem)?;
            words.are(&weighted.f_mem)?;
            words.are(&weighted.out)
        }
        Err(refusal) => {
            words.is(refusal.number())?;
            words.are(&x_mem)?;
            words.are(&f_mem)?;
            words.zeros()
        }
    }
}

fn open_loop_pitch(words: &mut Words) -> Option<()> {
    let limit = words.word()?;
    let wbuf = words.samples(505)?;
    match pitch::open_loop_pitch(limit, &wbuf, words.place()?) {
        Ok(lag) => {
            words.is(0)?;
            words.is(lag)
        }
        Err(refusal) => words.refused(refusal),
    }
}

fn harmonic_noise_shaping(words: &mut Words) -> Option<()> {
    let limit = words.word()?;
    let wbuf = words.samples(500)?;
    let place = words.place()?;
    let l_ol = words.word()?;
    match pitch::harmonic_noise_shaping(limit, &wbuf, place, l_ol) {
        Ok(params) => {
            words.is(0)?;
            words.is(params.lag)?;
            words.are(&[params.beta])
        }
        Err(refusal) => words.refused(refusal),
    }
}

fn given_memory(words: &mut Words) -> Option<CombinedMem> {
    let limit = words.word()?;
    Some(CombinedMem {
        syn: words.singles()?,
        wz: words.singles()?,
        wp: words.singles()?,
        p_hist: words.singles()?,
        limit,
    })
}

// The four memories.
fn memory_is(words: &mut Words, mem: &CombinedMem) -> Option<()> {
    words.are(&mem.syn)?;
    words.are(&mem.wz)?;
    words.are(&mem.wp)?;
    words.are(&mem.p_hist)
}

// The four memories after a call, which never alters the limit.
fn after_is(words: &mut Words, mem: &CombinedMem, limit: u32) -> Option<()> {
    memory_is(words, mem)?;
    (mem.limit == limit).then_some(())
}

// The lent memory is looked at after the call, done or refused; then the form by value, which holds none once it is refused.
fn run_combined(words: &mut Words) -> Option<()> {
    let mem = given_memory(words)?;
    let input = words.singles()?;
    let aq = words.singles()?;
    let wz = words.singles()?;
    let wp = words.singles()?;
    let lag = words.word()?;
    let beta = words.single()?;
    let mut again = *words;
    let mut held = mem;
    match combined_lent::run_combined_lent(&mut held, input, aq, wz, wp, lag, beta) {
        Ok(out) => {
            words.is(0)?;
            after_is(words, &held, mem.limit)?;
            words.are(&out)?;
        }
        Err(refusal) => {
            words.is(refusal.number())?;
            after_is(words, &held, mem.limit)?;
            words.zeros()?;
        }
    }
    match combined_lent::run_combined_lending(mem, input, aq, wz, wp, lag, beta) {
        Ok(answer) => {
            again.is(0)?;
            after_is(&mut again, &answer.mem, mem.limit)?;
            again.are(&answer.out)
        }
        Err(refusal) => again.is(refusal.number()),
    }
}

fn new_filter_memory(words: &mut Words) -> Option<()> {
    match CombinedMem::new(words.word()?) {
        Ok(mem) => {
            words.is(0)?;
            words.is(mem.limit)?;
            memory_is(words, &mem)
        }
        Err(refusal) => words.refused(refusal),
    }
}

fn combined_impulse_response(words: &mut Words) -> Option<()> {
    let limit = words.word()?;
    let aq = words.singles()?;
    let wz = words.singles()?;
    let wp = words.singles()?;
    let lag = words.word()?;
    let beta = words.single()?;
    words.lines(impulse::combined_impulse_response(limit, aq, wz, wp, lag, beta))
}

fn new_coder(words: &mut Words) -> Option<()> {
    words.is(0)?;
    coder_is(words, &Coder::new())
}

fn given_coder(words: &mut Words) -> Option<Coder> {
    Some(Coder {
        set: words.singles()?,
        lines: words.singles()?,
        x_mem: words.singles()?,
        f_mem: words.singles()?,
        weighted: words.singles()?,
    })
}

// The five memories.
fn coder_is(words: &mut Words, coder: &Coder) -> Option<()> {
    words.are(&coder.set)?;
    words.are(&coder.lines)?;
    words.are(&coder.x_mem)?;
    words.are(&coder.f_mem)?;
    words.are(&coder.weighted)
}

// The lags of both halves; the four settings, first the lags and then the factors; the filters.
fn frame_is(words: &mut Words, frame: &Frame) -> Option<()> {
    words.is(frame.index)?;
    for lag in frame.pitch {
        words.is(lag)?;
    }
    for setting in &frame.shaping {
        words.is(setting.lag)?;
    }
    for setting in &frame.shaping {
        words.are(&[setting.beta])?;
    }
    words.are(&frame.a)
}

fn code_frame(words: &mut Words) -> Option<()> {
    let coder = given_coder(words)?;
    let x = words.shorts(505)?;
    let spacing = words.single()?;
    match frame::code_frame(coder, &x, spacing) {
        Ok(frame) => {
            words.is(0)?;
            coder_is(words, &frame.coder)?;
            frame_is(words, &frame)
        }
        Err(refusal) => {
            words.is(refusal.number())?;
            coder_is(words, &coder)?;
            words.zeros()
        }
    }
}
