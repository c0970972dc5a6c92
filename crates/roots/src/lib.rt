// The roots of a cosine series: bracketed between neighbours of 1,025 points from cosine 1 down to −1, and each bracket halved fifty
// times. Scan and halvings together are the walk of `roots_of`.
#![tactic(auto)]

ghost use Rattle.std.specs.Prelude.{◌≡◌, cond, ◌≤◌};
ghost use Rattle.std.specs.Float.Ieee.{eq};
ghost use Rattle.float.specs.Table.{table};
ghost use Rattle.float.specs.Double.{double};
ghost use Rattle.float.specs.Narrow.{narrow};
ghost use Rattle.roots.specs.Clenshaw.{clenshaw_step, value_at};
ghost use Rattle.roots.specs.Root.{point};
ghost use Rattle.std.specs.Result.{result_ok};
ghost use Rattle.roots.specs.inner.Scan.{met, crossings, roots_in, crossed, as_crossings, all_five};
ghost use Rattle.roots.specs.inner.Bracket.{bracket, bracket_middle, bracket_halved};

use arrayvec::ArrayVec;

// One step of Clenshaw's rule.
#[tactic(auto, using(crate::proofs::Written::codes), unfolding(crate::specs::Clenshaw::clenshaw_step))]
fn step(x: f64, b1: f64, b2: f64, c: f64) -> f64
    ensures { result ≡ clenshaw_step x b1 b2 c }
{
    2.0 * x * b1 - b2 + c
}

fn value_at(c: &[f64; 6], x: f64) -> f64
    ensures { result ≡ value_at c.now x }
{
    let b = c[1..]
        .iter()
        .rev()
        .fold((0.0, 0.0), |b, c| (step(x, b.0, b.1, *c), b.0));
    x * b.0 - b.1 + c[0]
}

// A point of the scan, exact.
#[tactic(auto, using(crate::proofs::Written::points))]
fn point_at(i: usize) -> f64
    requires { i ≤ 1024 }
    ensures { result ≡ point i }
{
    if i <= 512 {
        return f64::from(quarter::at(4 * i)) / 1073741824.0;
    }
    -f64::from(quarter::at(4096 - 4 * i)) / 1073741824.0
}

// Two points that a root was met between.
#[derive(Clone, Copy, Default)]
pub struct Crossing {
    pub low: f64,
    pub high: f64,
}

#[tactic(auto, using(crate::proofs::Written::codes), unfolding(crate::specs::inner::Scan::met))]
fn is_met(before: f64, here: f64) -> bool
    ensures { result ≡ met before here }
{
    (before == 0.0) | (before * here < 0.0)
}

// From cosine 1 down: the points that five roots were met between, or those of the fewer that there are.
pub fn scan(c: &[f64; 6]) -> Result<[Crossing; 5], ArrayVec<Crossing, 5>>
    ensures whole { as_crossings result ≡ crossings c.now }
    ensures five { result_ok result ≡ all_five (crossings c.now) }
{
    let mut met = ArrayVec::new();
    let mut high = point_at(0);
    let mut before = value_at(c, high);
    for i in 1..1025 {
        let low = point_at(i);
        let here = value_at(c, low);
        if is_met(before, here) {
            met.push(Crossing { low, high });
            if met.is_full() {
                break;
            }
        }
        high = low;
        before = here;
    }
    met.into_inner()
}

// Two ends with a root between them, and the value at the low one.
#[derive(Clone, Copy)]
struct Bracket {
    low: f64,
    high: f64,
    value: f64,
}

// A choice of values and not of ways, so that no branch is guessed wrong fifty times.
fn pick(first: bool, x: f64, y: f64) -> f64
    ensures { result ≡ cond first x y }
{
    if first { x } else { y }
}

#[tactic(auto, using(crate::proofs::Written::codes), unfolding(crate::specs::Root::middle))]
fn middle(s: Bracket) -> f64
    ensures { result ≡ bracket_middle s }
{
    0.5 * (s.low + s.high)
}

#[tactic(auto, using(crate::proofs::Written::codes), unfolding(crate::specs::inner::Bracket::bracket_halved))]
fn halve(c: &[f64; 6], s: Bracket) -> Bracket
    ensures { result ≡ bracket_halved c.now s }
{
    let m = middle(s);
    let v = value_at(c, m);
    let b = v * s.value < 0.0;
    Bracket {
        low: pick(b, s.low, m),
        high: pick(b, m, s.high),
        value: pick(b, s.value, v),
    }
}

#[tactic(auto, unfolding(crate::specs::inner::Bracket::bracket))]
fn bracket_of(c: &[f64; 6], met: Crossing) -> Bracket
    ensures { result ≡ bracket c.now met.low met.high }
{
    Bracket {
        low: met.low,
        high: met.high,
        value: value_at(c, met.low),
    }
}

// What is recorded of two ends, once they have been halved to s.
#[tactic(auto, using(crate::proofs::Written::codes))]
fn root_of(c: &[f64; 6], high: f64, s: Bracket) -> f32
    ensures { result ≡ narrow (cond (eq (value_at c.now high) (double 0 1)) high (bracket_middle s)) }
{
    if value_at(c, high) == 0.0 {
        return float::narrow(high);
    }
    float::narrow(middle(s))
}

// The five roots are halved side by side: none waits for another.
pub fn refine(c: &[f64; 6], met: [Crossing; 5]) -> [f32; 5]
    ensures { result ≡ table 5 (roots_in c.now (crossed 5 met)) }
{
    let mut s = met.map(|m| bracket_of(c, m));
    for _ in 0..50usize {
        s = s.map(|b| halve(c, b));
    }
    std::array::from_fn(|k| root_of(c, met[k].high, s[k]))
}
