// The cases of the combined filter: a history that counts, so that each place is told from the others.
ghost use Rattle.std.specs.Prelude.{◌+◌, ◌<◌, ◌≤◌};

use combined::CombinedMem;
use float::status::Refusal;
use std::array;

// 145 numbers: from, from + 1, ..
fn counting(from: f32) -> [f32; 145] {
    array::from_fn(|k| from + f32::from(k as u8))
}

// A memory with that history.
fn with_history(limit: u32, p_hist: [f32; 145]) -> CombinedMem {
    CombinedMem {
        syn: [0.0; 10],
        wz: [0.0; 10],
        wp: [0.0; 10],
        p_hist,
        limit,
    }
}

// A memory whose history counts, but for one place.
fn memory(limit: u32, place: usize, x: f32) -> CombinedMem
    requires { place < 145 }
{
    let mut p_hist = counting(1.0);
    p_hist[place] = x;
    with_history(limit, p_hist)
}

// A filter with no prediction.
fn bare() -> [f32; 11] {
    let mut aq = [0.0; 11];
    aq[0] = 1.0;
    aq
}

// The unit impulse through a filter with no prediction and no weighting; factor 0.25. The memory is lent, so that it can be
// looked at after a refusal too.
fn over(mem: &mut CombinedMem, lag: u32) -> Result<[f32; 60], Refusal> {
    let mut input = [0.0; 60];
    input[0] = 1.0;
    combined_lent::run_combined_lent(mem, input, bare(), [0.0; 10], [0.0; 10], lag, 0.25)
}

// The places from `at` up to `to` of a history hold from, from + 1, ..
fn counts_on(p_hist: &[f32; 145], at: usize, to: usize, from: f32) -> bool
    requires { (at ≤ to) × (to ≤ 145) }
{
    &p_hist[at..to] == &counting(from)[..to - at]
}

// Those hold +0.
fn silent(p_hist: &[f32; 145], at: usize, to: usize) -> bool
    requires { (at ≤ to) × (to ≤ 145) }
{
    p_hist[at..to].iter().all(|x| float::same_bits(*x, 0))
}

// What is in use after the impulse: 61 to 85, 1, and zeros; the others, from 86 on, as they were.
fn kept_at_82(mem: &CombinedMem) -> bool {
    let old = counts_on(&mem.p_hist, 0, 25, 61.0);
    let new = (mem.p_hist[25] == 1.0) & silent(&mem.p_hist, 26, 85);
    let others = counts_on(&mem.p_hist, 85, 145, 86.0);
    old & new & others & (mem.limit == 82)
}

// Lag 85 reads the history from its oldest place on.
pub fn oldest_in_use() -> bool {
    let mut mem = memory(82, 0, 1.0);
    let Ok(out) = over(&mut mem, 85) else {
        return false;
    };
    out.starts_with(&[0.75, -0.5, -0.75, -1.0]) & kept_at_82(&mem)
}

// At 142 the same lag reads it from place 60 on.
pub fn input_at_60() -> bool {
    let mut mem = memory(142, 0, 1.0);
    let Ok(out) = over(&mut mem, 85) else {
        return false;
    };
    let moved = counts_on(&mem.p_hist, 0, 85, 61.0) & silent(&mem.p_hist, 86, 145);
    out.starts_with(&[-14.25, -15.5, -15.75, -16.0]) & moved
}

// Up to 82, over the last 85 of them: the same outputs, and afterwards the last 85 of what is kept there.
pub fn with_less_history() -> bool {
    let mut mem = with_history(82, counting(61.0));
    let Ok(out) = over(&mut mem, 85) else {
        return false;
    };
    let old = counts_on(&mem.p_hist, 0, 25, 121.0);
    let new = (mem.p_hist[25] == 1.0) & silent(&mem.p_hist, 26, 85);
    out.starts_with(&[-14.25, -15.5, -15.75, -16.0]) & old & new
}

// The same bits; a NaN stands for any NaN, as it has no pattern here.
fn same(x: f32, y: f32) -> bool {
    if y.is_nan() {
        x.is_nan()
    } else {
        float::same_bits(x, y.to_bits())
    }
}

fn all_same(xs: &[f32], ys: &[f32]) -> bool {
    xs.iter().zip(ys).all(|(x, y)| same(*x, *y))
}

// A refusal, and each place of the lent memory is as it was, in use or not.
fn refused(lent: CombinedMem, lag: u32, refusal: Refusal) -> bool {
    let mut mem = lent;
    let answer = over(&mut mem, lag);
    let memories = all_same(&mem.syn, &lent.syn)
        & all_same(&mem.wz, &lent.wz)
        & all_same(&mem.wp, &lent.wp);
    let history = all_same(&mem.p_hist, &lent.p_hist);
    (answer == Err(refusal)) & memories & history & (mem.limit == lent.limit)
}

pub fn out_of_reach() -> bool {
    refused(memory(82, 0, 1.0), 86, Refusal::Lag)
}

// What a memory of either limit answers to a lag.
pub fn of_the_other_limit(lag: u32) -> bool {
    let own = over(&mut memory(142, 0, 1.0), lag);
    own.is_ok() & refused(memory(82, 0, 1.0), lag, Refusal::Lag)
}

// Everything is wrong with it, and the limit is looked at first.
pub fn other_limit() -> bool {
    refused(memory(100, 0, f32::NAN), 3, Refusal::Choice)
}

// The newest place in use is looked at; the place after it is not, and comes back.
pub fn nan_beside_the_history() -> bool {
    let inside = refused(memory(82, 84, f32::NAN), 85, Refusal::NotFinite);
    let mut mem = memory(82, 85, f32::NAN);
    let beside = over(&mut mem, 85);
    let kept = !float::is_finite(mem.p_hist[85]) & counts_on(&mem.p_hist, 86, 145, 87.0);
    inside & beside.is_ok() & kept
}

// The first subframe's inputs stand in the second one's history: at lag 60 each is taken again.
pub fn in_a_row() -> bool {
    let mut mem = memory(82, 0, 1.0);
    let first = over(&mut mem, 85);
    let Ok(out) = over(&mut mem, 60) else {
        return false;
    };
    let others = counts_on(&mem.p_hist, 85, 145, 86.0);
    first.is_ok() & out.starts_with(&[0.75, 0.0, 0.0, 0.0]) & (mem.limit == 82) & others
}

// A memory at rest, of that limit.
fn rests(mem: &CombinedMem, limit: u32) -> bool {
    let taps = float::same_bits(mem.syn[0], 0)
        & float::same_bits(mem.wz[0], 0)
        & float::same_bits(mem.wp[9], 0);
    taps & silent(&mem.p_hist, 0, 145) & (mem.limit == limit)
}

fn new_is(limit: u32) -> bool {
    CombinedMem::new(limit).is_ok_and(|mem| rests(&mem, limit))
}

// The zeros of its line are the definition's: an `Err` has no memory.
fn new_refused(limit: u32) -> bool {
    CombinedMem::new(limit) == Err(Refusal::Choice)
}

pub fn new_memories() -> bool {
    let taken = new_is(142) & new_is(82);
    taken & new_refused(0) & new_refused(83) & new_refused(145)
}

// A bare filter's response.
fn response(limit: u32, lag: u32) -> Result<[f32; 60], Refusal> {
    impulse::combined_impulse_response(limit, bare(), [0.0; 10], [0.0; 10], lag, 0.25)
}

// Its samples 0 and 59.
fn response_is(limit: u32, lag: u32, first: f32, last: f32) -> bool {
    response(limit, lag).is_ok_and(|out| (out[0] == first) & (out[59] == last))
}

pub fn responses() -> bool {
    let taken = response_is(82, 59, 1.0, -0.25) & response_is(82, 85, 1.0, 0.0);
    let far = response(82, 86) == Err(Refusal::Lag);
    taken & far & (response(83, 59) == Err(Refusal::Choice))
}
