// The sums of the weighted speech at each lag, and the search over lags that open-loop pitch and harmonic noise shaping share.
// Each sum keeps the Rust's order; eight lags' sums run side by side. A caller widens its samples once: history, then the samples.
#![tactic(auto)]

ghost use Rattle.std.specs.Prelude.{◌≡◌, ◌++◌, suc, ◌+◌, ◌-◌, ◌≤◌, T, Some, length, get_or, drop, map};
ghost use Rattle.std.specs.Float.{nan};
ghost use Rattle.std.specs.Float.Ieee.Scale.{finite};
ghost use Rattle.float.specs.Table.{table};
ghost use Rattle.float.specs.Loop.{over};
ghost use Rattle.float.specs.Double.{◌⊠◌};
ghost use Rattle.float.specs.Refusal.{all};
ghost use Rattle.float.specs.Vector.{zeros};
ghost use Rattle.lags.specs.Lags.{cross, power};
ghost use Rattle.lags.specs.Search.{as_best, challenged, offered, winner, preferred};

// The winner so far among the lags searched, once a lag has counted.
#[derive(Clone, Copy, Debug)]
pub struct Best {
    pub ratio: f64,
    pub lag: u32,
}

// The sums of eight lags, the highest lag first, as the samples that they read stand in memory. Two arrays and no pairs, so that eight sums
// stand side by side in registers (docs/BENCH.md).
#[derive(Clone, Copy, Debug)]
pub struct EightLags {
    pub cross: [f64; 8],
    pub power: [f64; 8],
}

// Samples as doubles, and their squares: the square of a single is exact in a double, so every lag's sum can share it.
#[derive(Drop)]
pub struct Widened {
    pub samples: [f64; 265],
    pub squares: [f64; 265],
    pub ghost squared: { squares ≡ map (λ x. x ⊠ x) samples },
}

impl Widened {
    pub fn zeros() -> Self
        ensures { result.samples ≡ zeros 265 }
    {
        Self {
            samples: [0.0; 265],
            squares: [0.0; 265],
        }
    }

    // The samples, which are finite, widened and squared once for all the sums; what stands after them stays. In place: a new value made from
    // the samples was copied where it is used, 4 KB more of the stack. By index: nothing is known of what an adapter of `iter_mut` has written.
    pub fn widen(&mut self, f: &[f32])
        requires within { length f.now ≤ 265 }
        requires fine { T (all finite f.now) }
        ensures { self.new.samples ≡ f.now ++ drop (length f.now) self.old.samples }
    {
        for (i, x) in f.iter().enumerate() {
            // they are finite: `f64::from` would ask each whether it is a NaN
            let x = *x as f64;
            self.samples[i] = x;
            self.squares[i] = x * x;
        }
    }

    // Both sums of the lags lag, .., lag + 7 over count samples from o on, side by side: each keeps its own order, and none waits for another.
    pub fn eight_lags(&self, o: usize, count: usize, lag: usize) -> EightLags
        requires history { lag + 7 ≤ o }
        requires within { o + count ≤ 265 }
        ensures cross { result.cross ≡ table 8 (λ i. cross self.now.samples o count (lag + 7 - i)) }
        ensures power { result.power ≡ table 8 (λ i. power self.now.samples o count (lag + 7 - i)) }
    {
        let x = &self.samples;
        let squares = &self.squares;
        let from = o - lag - 7;
        let mut cross = [0.0; 8];
        let mut power = [0.0; 8];
        // by index: each turn reads at two places
        for n in 0..count {
            let f = x[o + n];
            let k = from + n;
            cross = std::array::from_fn(|i| cross[i] + f * x[k + i]);
            power = std::array::from_fn(|i| power[i] + squares[k + i]);
        }
        EightLags { cross, power }
    }

    // The sum of the squares of count samples from o on.
    pub fn energy(&self, o: usize, count: usize) -> f64
        requires { o + count ≤ 265 }
        ensures { result ≡ power self.now.samples o count 0 }
    {
        let mut sum = 0.0;
        for square in &self.squares[o..o + count] {
            sum += *square;
        }
        sum
    }

    // Lags 18 up to the limit, eight at a time; the last eight may begin earlier, so that no lag exceeds the history.
    pub fn search(&self, limit: u32) -> Option<Best>
        requires eight { 22 ≤ limit }
        requires highest { limit ≤ 142 }
        ensures { as_best result ≡ winner preferred self.now.samples (limit + 3) 120 18 (suc limit) }
    {
        let mut best = None;
        for lag in (18..=limit).step_by(8) {
            let first = lag.min(limit - 4);
            let to = (lag + 8).min(limit + 1);
            let sums = self.eight_lags(limit as usize + 3, 120, first as usize);
            best = compete(best, &sums, first, lag, to);
        }
        best
    }

    // The lag of the winner of that search, 18 where no lag counts.
    #[tactic(auto, unfolding(crate::specs::Search::nothing))]
    pub fn open_loop_lag(&self, limit: u32) -> u32
        requires eight { 22 ≤ limit }
        requires highest { limit ≤ 142 }
        ensures { result ≡ (winner preferred self.now.samples (limit + 3) 120 18 (suc limit)).lag }
    {
        self.search(limit).map_or(18, |best| best.lag)
    }
}

// The first lag that counts wins; a later one nearer than 18 to the winner needs a greater ratio, any other one a ratio greater by 1.25 dB.
pub fn challenge(best: Option<Best>, lag: u32, ratio: f64) -> Best
    ensures { as_best (Some result) ≡ challenged preferred (as_best best) lag ratio }
{
    let won = Best { ratio, lag };
    let Some(top) = best else {
        return won;
    };
    let far = u64::from(top.lag) + 18;
    if u64::from(lag) < far {
        if top.ratio < ratio { won } else { top }
    } else if top.ratio * 1.333521432163324 < ratio {
        won
    } else {
        top
    }
}

// The lags from, .., to - 1 compete, with the sums of the eight lags that begin at first.
pub fn compete(best: Option<Best>, sums: &EightLags, first: u32, from: u32, to: u32) -> Option<Best>
    requires start { first ≤ from }
    requires order { from ≤ to }
    requires end { to ≤ first + 8 }
    requires highest { first ≤ 142 }
    ensures { as_best result ≡ over from to (λ j b. offered preferred b j (get_or sums.now.cross (first + 7 - j) nan) (get_or sums.now.power (first + 7 - j) nan)) (as_best best) }
{
    let mut b = best;
    // the lags themselves; a place is reckoned from one
    for lag in from..to {
        let i = (first + 7 - lag) as usize;
        let num = sums.cross[i];
        let den = sums.power[i];
        if 0.0 < num && 0.0 < den {
            b = Some(challenge(b, lag, num * num / den));
        }
    }
    b
}
