// Line spectral pairs: from the prediction filter to their cosines.
#![tactic(auto)]

ghost use Rattle.std.specs.Prelude.{◌≡◌, ◌-◌, ℕ, Float};
ghost use Rattle.float.specs.Vector.{at};
ghost use Rattle.float.specs.Table.{table};
ghost use Rattle.float.specs.Lines.{as_lines};
ghost use Rattle.roots.specs.Root.{roots_of};
ghost use Rattle.lsp.specs.Chebyshev.{seeded, factor};
ghost use Rattle.lsp.specs.Pairs.{in_turn, falling, paired, lpc_to_lsp};

use float::status::Refusal;

// A side of a filter: the first number is 1, and each other one is made of two coefficients and the number before it.
fn side<F: Fn(f32, f32, f32) -> f32>(a: &[f32; 11], next: F) -> [f32; 6]
    requires { F.IsAlwaysCallable next }
    ensures { (t : ℕ → Float → Float) → ((i : ℕ) (f r : Float) → F.post next (at a.now i) (at a.now (11 - i)) f r → r ≡ t i f) → result ≡ table 6 (seeded t) }
{
    let mut f = [1.0f32; 6];
    // one array from both ends by one index, and each number from the one before
    for i in 1..6 {
        f[i] = next(a[i], a[11 - i], f[i - 1]);
    }
    f
}

// A side's factors of the Chebyshev polynomials, in doubles.
fn factors(f: [f32; 6]) -> [f64; 6]
    ensures { result ≡ table 6 (factor f) }
{
    let mut c = std::array::from_fn(|m| f64::from(f[5 - m]));
    c[0] *= 0.5;
    c
}

// The two sides' roots in turn.
fn take_turns(p: [f32; 5], q: [f32; 5]) -> [f32; 10]
    ensures { result ≡ in_turn p q }
{
    std::array::from_fn(|k| if k % 2 == 0 { p[k / 2] } else { q[k / 2] })
}

fn is_falling(x: &[f32; 10]) -> bool
    ensures { result ≡ falling 9 x.now }
{
    x.is_sorted_by(|before, here| here < before)
}

// The roots of the two sides in turn. A refusal here is due only once the roots are known; where a side has too few, none is refined.
#[tactic(auto, using(crate::proofs::Paired::pairs))]
fn pair(c: &[f64; 6], d: &[f64; 6]) -> Result<[f32; 10], Refusal>
    ensures { as_lines result ≡ paired (roots_of c.now) (roots_of d.now) }
{
    let p = roots::scan(c).map_err(|_| Refusal::NoLines)?;
    let q = roots::scan(d).map_err(|_| Refusal::NoLines)?;
    let lines = take_turns(roots::refine(c, p), roots::refine(d, q));
    if !is_falling(&lines) {
        return Err(Refusal::NoLines);
    }
    Ok(lines)
}

// The cosines of a filter's line spectral pairs. Refusals: 5; 7 where five roots a side do not make ten that fall.
#[tactic(auto, using(float::proofs::Refusal::exits), unfolding(crate::specs::Pairs::lpc_to_lsp))]
pub fn lpc_to_lsp(a: [f32; 11]) -> Result<[f32; 10], Refusal>
    ensures { as_lines result ≡ lpc_to_lsp a }
{
    float::check_finite(&a)?;
    let sums = side(&a, |x, y, before| x + y - before);
    let differences = side(&a, |x, y, before| x - y + before);
    pair(&factors(sums), &factors(differences))
}
