// A line of 10,000 turns, played for both ends by `line::play`: sets that are refused, single losses, long silences, and rows of arrivals.
// After each row of arrivals it writes the largest difference of the two ends in units of 1/64, rounded up, beside the bound of the
// theorem in crates/line/proofs/Rejoin.antt, (3/8)^n times the difference before and one unit, with one unit more for the rounding; and
// whether it held. Then the widest gap that the built-in rows can make, which shows how little slack the theorem has: 13 arrivals do not
// bring it down to two units, 1/32. A write that fails is not told of.
#![tactic(auto)]

ghost use Rattle.std.specs.Prelude.{◌<◌, ◌≤◌};

use line::{Ends, Outcome, Turn};
use spec_lsp::decode;
use std::num;

// The next pseudo-random number, below 2^31.
fn next(seed: u64) -> u64 {
    (seed % 2147483648 * 1103515245 + 12345) % 2147483648
}

// A number of 0..m - 1 out of a pseudo-random one.
fn pick(seed: u64, m: u64) -> u64
    requires { 0 < m }
    ensures { result < m }
{
    seed / 1024 % m
}

// How far a given frequency lies from its resting value: -8,192..8,191.
fn offset(seed: u64) -> f32 {
    f32::from(pick(seed, 16384) as u16) - 8192.0
}

// Ten frequencies about the resting ones.
fn ordinary(rest: [f32; 10], seed: u64) -> [f32; 10] {
    let mut s = seed;
    rest.map(|x| {
        s = next(s);
        x + offset(s)
    })
}

// What the coder is given: now and then a set that it refuses, or one at the very limit.
fn given(rest: [f32; 10], seed: u64, k: u64) -> [f32; 10] {
    let mut set = ordinary(rest, seed);
    match pick(seed, 24) {
        0 => set[3] = f32::NAN,
        1 => set[0] = f32::INFINITY,
        2 => set[9] = 65537.0,
        3 => set[9] = 65536.0,
        _ => {}
    }
    // a spell in which nothing is sent
    if k / 64 % 16 == 9 {
        set[5] = f32::NEG_INFINITY;
    }
    set
}

// Whether the line would bring this turn's index.
fn brings(seed: u64, k: u64) -> bool {
    match k / 64 % 16 {
        2 | 11 => false,
        5 | 14 => true,
        0..8 => pick(seed, 8) != 0,
        _ => pick(seed, 3) != 0,
    }
}

// The least whole number that is no less than x, up to 2^23.
fn ceiling(x: f64) -> u32
    ensures { result ≤ 8388608 }
{
    num::saturating_f64_to_u32(x.ceil()).min(8388608)
}

// The largest difference of two sets, in units of 1/64.
fn apart(one: [f32; 10], other: [f32; 10]) -> f64 {
    let mut most = 0.0f64;
    for (x, y) in one.iter().zip(&other) {
        most = most.max((f64::from(*x) - f64::from(*y)).abs() * 64.0);
    }
    most
}

fn ends_apart(ends: Ends) -> f64 {
    apart(ends.coder, ends.decoder)
}

// What n arrivals leave of a difference.
fn left(before: f64, n: u64) -> f64 {
    let mut x = before;
    for _ in 0..n {
        x *= 0.375;
    }
    x
}

// A row of n arrivals is over: whether the bound held, with a line that says so.
fn report(rt: &impl Print, n: u64, before: f64, ends: Ends) -> bool {
    let was = ceiling(before);
    let now = ceiling(ends_apart(ends));
    let bound = ceiling(left(before, n)) + 2;
    let held = now <= bound;
    let outcome = if held { "held" } else { "NOT HELD" };
    let _ = println!(rt; "{n} arrivals: {was} before, {now} after, bound {bound}, {outcome}");
    held
}

// Where the line has come to, and what has been counted. No count comes near 2^64.
#[derive(Drop)]
struct State {
    seed: u64,
    ends: Ends,
    // in a row, and how far the ends lay apart before them
    arrivals: u64,
    before: f64,
    rows: u64,
    held: u64,
    lost: u64,
    refused: u64,
}

impl State {
    fn new(ends: Ends) -> State {
        State {
            seed: 20250118,
            ends,
            arrivals: 0,
            before: 0.0,
            rows: 0,
            held: 0,
            lost: 0,
            refused: 0,
        }
    }

    // The row that a loss or the end cuts off.
    fn row_over(&mut self, rt: &impl Print) {
        if self.arrivals == 0 {
            return;
        }
        if report(rt, self.arrivals, self.before, self.ends) {
            self.held = self.held.wrapping_add(1);
        }
        self.rows = self.rows.wrapping_add(1);
        self.arrivals = 0;
    }

    fn turn(&mut self, rt: &impl Print, rest: [f32; 10], k: u64) {
        self.seed = next(self.seed);
        let turn = Turn {
            given: given(rest, self.seed, k),
            brings: brings(self.seed, k),
        };
        let played = line::play(self.ends, turn);
        match played.outcome {
            Outcome::Refused => self.refused = self.refused.wrapping_add(1),
            Outcome::Arrived => self.arrivals = self.arrivals.wrapping_add(1),
            Outcome::Lost => {
                self.row_over(rt);
                self.before = ends_apart(played.ends);
                self.lost = self.lost.wrapping_add(1);
            }
        }
        self.ends = played.ends;
    }

    // The last row, and the totals.
    fn finish(&mut self, rt: &impl Print) {
        self.row_over(rt);
        total(rt, "rows of arrivals", self.rows);
        total(rt, "bound held", self.held);
        total(rt, "indices lost", self.lost);
        total(rt, "sets refused", self.refused);
    }
}

fn total(rt: &impl Print, name: &str, n: u64) {
    let _ = println!(rt; "{name}: {n}");
}

// The coder is given what an index makes of its own set, so that it sends that index.
fn repeated(ends: Ends, index: u32, brings: bool) -> Ends {
    let given = decode::decode_lsp_freq(index, ends.coder).unwrap_or([0.0; 10]);
    line::play(ends, Turn { given, brings }).ends
}

fn driven(ends: Ends, index: u32, turns: u64, brings: bool) -> Ends {
    let mut ends = ends;
    for _ in 0..turns {
        ends = repeated(ends, index, brings);
    }
    ends
}

// Frequency 4 has its least number in row 7 of band 1 and its greatest in row 255. Both ends go down as far as they can, the coder comes
// up as far as it can while nothing arrives, and then everything does.
fn widest_gap(rt: &impl Print, begin: Ends) {
    let down = driven(begin, 1792, 40, true);
    let wide = driven(down, 65280, 40, false);
    let before = ends_apart(wide);
    total(
        rt,
        "furthest from rest",
        u64::from(ceiling(apart(wide.coder, begin.coder))),
    );
    let thirteen = driven(wide, 65280, 13, true);
    report(rt, 13, before, thirteen);
    let fifteen = driven(thirteen, 65280, 2, true);
    report(rt, 15, before, fifteen);
}

fn main(rt: HostRuntime) {
    let begin = line::begin();
    let mut state = State::new(begin);
    for k in 0..10000 {
        state.turn(&rt, begin.coder, k);
    }
    state.finish(&rt);
    widest_gap(&rt, begin);
}
