// How far both ends of a line lie apart (request E7), counted exactly: every frequency that the line holds is a whole multiple of 2^-13.
#![tactic(auto)]

ghost use Rattle.std.specs.Prelude.{◌≡◌, ◌<◌};
ghost use Rattle.line_grid.specs.inner.Placed.{placed};
ghost use Rattle.ends_apart.specs.Apart.{apart64};
ghost use Rattle.ends_apart.specs.inner.Steps.{Counted, Steady, steps_apart};

use line::Ends;

// A frequency in steps of 2^-13, which it is a whole number of, counted from -65,536.
fn place(x: f32) -> u32
    requires { Counted x }
    ensures { (result ≡ placed x) × (result < 1073741824) }
{
    let steps = std::num::truncating_f32_to_i64(x * 8192.0);
    (536870912 + steps) as u32
}

// The largest distance of ten frequencies, in steps.
fn steps_apart(x: [f32; 10], y: [f32; 10]) -> u32
    requires { Steady x × Steady y }
    ensures { (result ≡ steps_apart x y 10) × (result < 1073741824) }
{
    let mut most = 0;
    for (a, b) in x.iter().zip(&y) {
        most = most.max(place(*a).abs_diff(place(*b)));
    }
    most
}

// In 1/64, of which each has 128 steps, and rounded up.
#[tactic(auto, using(crate::proofs::Counting::apart_is))]
pub fn apart_64(ends: Ends) -> u32
    requires { Steady ends.coder × Steady ends.decoder }
    ensures { result ≡ apart64 ends }
{
    steps_apart(ends.coder, ends.decoder).div_ceil(128)
}
