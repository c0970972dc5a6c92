// From line sets to filters: the lines of a subframe between two frames' sets, and the filter of a set.
#![tactic(auto)]

ghost use Rattle.std.specs.Prelude.{◌≡◌, ◌≤◌};
ghost use Rattle.float.specs.Table.{table};
ghost use Rattle.float.specs.Lines.{as_lines};
ghost use Rattle.lsp_filter.specs.Interpolate.{previous_weight, current_weight, weighed, interpolate_lsp};
ghost use Rattle.lsp_filter.specs.Polynomial.{as_lpc, quadratic, side, half_sum, lsp_to_lpc};

use float::status::Refusal;

// What the previous set weighs, and this one.
fn weighing(choice: usize) -> (f32, f32)
    ensures { result ≡ (previous_weight choice, current_weight choice) }
{
    match choice {
        0 => (0.75, 0.25),
        1 => (0.5, 0.5),
        2 => (0.25, 0.75),
        _ => (0.0, 1.0),
    }
}

// A choice above 2 is computed as the others are: a -0 of this set's can become +0.
fn weigh(choice: usize, prev: &[f32; 10], cur: &[f32; 10]) -> [f32; 10]
    ensures { result ≡ table 10 (weighed choice prev.now cur.now) }
{
    let (previous, current) = weighing(choice);
    std::array::from_fn(|i| previous * prev[i] + current * cur[i])
}

// The lines of a subframe between the last frame's and this one's, each finite.
#[tactic(auto, using(float::proofs::Refusal::exits, crate::proofs::Sets::sets), unfolding(crate::specs::Interpolate::interpolate_lsp))]
pub fn interpolate_lsp(choice: usize, prev: [f32; 10], cur: [f32; 10]) -> Result<[f32; 10], Refusal>
    ensures { as_lines result ≡ interpolate_lsp choice prev cur }
{
    float::check_finite(&prev)?;
    float::check_finite(&cur)?;
    Ok(weigh(choice, &prev, &cur))
}

// The product of p with 1 - 2c z^-1 + z^-2, in place from its degree d down.
fn times_quadratic(d: usize, c: f32, p: [f32; 11]) -> [f32; 11]
    requires least { 2 ≤ d }
    requires most { d ≤ 10 }
    ensures { result ≡ quadratic d c p }
{
    let mut out = p;
    for i in (2..=d).rev() {
        out[i] += -2.0 * c * out[i - 1] + out[i - 2];
    }
    out[1] -= 2.0 * c * out[0];
    out
}

// Five quadratics, of the cosine at s in each pair of neighbours.
fn side_of(lsp: &[f32; 10], s: usize) -> [f32; 11]
    requires { s ≤ 1 }
    ensures { result ≡ side lsp.now s }
{
    let mut p = [0.0; 11];
    p[0] = 1.0;
    let (pairs, _) = lsp.as_chunks::<2>();
    for (k, pair) in pairs.iter().enumerate() {
        p = times_quadratic(2 * k + 2, pair[s], p);
    }
    p
}

// Coefficient i: half the sum of the two sides', each by its trivial factor.
fn half_sum(p: &[f32; 11], q: &[f32; 11], i: usize) -> f32
    requires { i ≤ 10 }
    ensures { result ≡ half_sum p.now q.now i }
{
    if i == 0 {
        return 1.0;
    }
    0.5 * ((0.0 + p[i - 1] + p[i]) + (0.0 - q[i - 1] + q[i]))
}

// The two trivial factors, halved.
fn join_sides(p: &[f32; 11], q: &[f32; 11]) -> [f32; 11]
    ensures { result ≡ table 11 (half_sum p.now q.now) }
{
    std::array::from_fn(|i| half_sum(p, q, i))
}

// The prediction filter of a line set, each line finite.
#[tactic(auto, using(float::proofs::Refusal::exits), unfolding(crate::specs::Polynomial::lsp_to_lpc))]
pub fn lsp_to_lpc(lsp: [f32; 10]) -> Result<[f32; 11], Refusal>
    ensures { as_lpc result ≡ lsp_to_lpc lsp }
{
    float::check_finite(&lsp)?;
    Ok(join_sides(&side_of(&lsp, 0), &side_of(&lsp, 1)))
}
