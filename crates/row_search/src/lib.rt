// The search of a code row by weighted squared error, over rows that the caller lends: no table stands here.
// A row is named by its first number's place; the rows of a search stand one after the other.
#![tactic(auto)]

ghost use Rattle.std.specs.Prelude.{◌≡◌, ℕ, ◌+◌, ◌*◌, ◌≤◌, ◌<◌, length, false, Float};
ghost use Rattle.std.specs.Float.{inf};
ghost use Rattle.spec_tables.specs.Rows.{row_from};
ghost use Rattle.row_search.specs.Error.{row_error};
ghost use Rattle.row_search.specs.Search.{better, best, errors};
ghost use Rattle.row_search.specs.inner.Four.{pair, better_four};

// The smallest error so far and its index.
#[derive(Clone, Copy)]
struct Smallest {
    error: f32,
    index: usize,
}

impl Smallest {
    // Before the first error.
    fn none() -> Smallest
        ensures { pair result ≡ (inf false, 0) }
    {
        Smallest {
            error: f32::INFINITY,
            index: 0,
        }
    }

    // After one more error.
    #[tactic(auto, unfolding(crate::specs::Search::better))]
    fn offer(self, error: f32, index: usize) -> Smallest
        ensures { pair result ≡ better error index (pair self) }
    {
        if error < self.error {
            Smallest { error, index }
        } else {
            self
        }
    }

    // After four more, from index `first` on. Seldom is one of them below the smallest so far: one test passes over the four.
    #[tactic(auto, using(crate::proofs::Four::none_below), unfolding(crate::specs::inner::Four::better_four))]
    fn offer_four(self, errors: [f32; 4], first: usize) -> Smallest
        requires { first + 3 ≤ usize.MAX }
        ensures { pair result ≡ better_four errors first (pair self) }
    {
        let [a, b, c, d] = errors;
        let least = self.error;
        if (a < least) | (b < least) | (c < least) | (d < least) {
            self.offer(a, first)
                .offer(b, first + 1)
                .offer(c, first + 2)
                .offer(d, first + 3)
        } else {
            self
        }
    }
}

// The weighted squared error of a row of any width. By an index, since three lists are read side by side.
pub fn row_error(
    rows: &[i16],
    place: usize,
    width: usize,
    target: &[f32],
    weights: &[f32],
    start: usize,
) -> f32
    requires { (place + width ≤ length rows.now) × (start + width ≤ length target.now) × (start + width ≤ length weights.now) }
    ensures { result ≡ row_error target.now weights.now start (row_from rows.now width place) }
{
    let mut error = 0.0f32;
    for j in 0..width {
        let d = target[start + j] - f32::from(rows[place + j]);
        error += weights[start + j] * d * d;
    }
    error
}

// Of so many errors the place of the smallest, the first of equals. Four are taken side by side: where their rows' width is known they are one
// vector (docs/BENCH.md).
fn best_of<F: Fn(usize) -> f32>(count: usize, error: F) -> usize
    requires { (i : ℕ) → i < count → F.pre error i }
    ensures { (e : ℕ → Float) → ((i : ℕ) (r : Float) → i < count → F.post error i r → r ≡ e i) → result ≡ best e count }
{
    let mut best = Smallest::none();
    let fours = count / 4;
    for n in 0..fours {
        let i = 4 * n;
        best = best.offer_four([error(i), error(i + 1), error(i + 2), error(i + 3)], i);
    }
    for i in 4 * fours..count {
        best = best.offer(error(i), i);
    }
    best.index
}

// The row of smallest error among `count` rows of `width` numbers from place `first` on, the first of equals. The bands' widths stand as
// numbers, so that their rows are unrolled.
pub fn best_row(
    rows: &[i16],
    first: usize,
    width: usize,
    count: usize,
    target: &[f32],
    weights: &[f32],
    start: usize,
) -> usize
    requires { (first + count * width ≤ length rows.now) × (start + width ≤ length target.now) × (start + width ≤ length weights.now) }
    ensures { result ≡ best (errors target.now weights.now start rows.now width first) count }
{
    match width {
        3 => best_of(
            count,
            |i| row_error(rows, first + i * 3, 3, target, weights, start),
        ),
        4 => best_of(
            count,
            |i| row_error(rows, first + i * 4, 4, target, weights, start),
        ),
        _ => best_of(
            count,
            |i| row_error(rows, first + i * width, width, target, weights, start),
        ),
    }
}
