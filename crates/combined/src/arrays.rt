// The arrays that a subframe is worked in: the number of a sample is its position in each. A step alters one number in each, and nothing is
// moved until the subframe ends.
ghost use Rattle.std.specs.Prelude.{◌≡◌, ◌+◌, ◌<◌};
ghost use Rattle.float.specs.Loop.{over};
ghost use Rattle.float.specs.Single.{◌⊖◌, ◌⊗◌};
ghost use Rattle.weighting.specs.inner.Delay.{behind};
ghost use Rattle.combined.specs.Cascade.{synthesised};
ghost use Rattle.combined.specs.inner.Step.{begun, ended, sampled, stepped};
ghost use Rattle.combined.specs.inner.Made.{arrays_of, settings_of};

use crate::settings::Settings;
use harmonic_history::PLACES;

// Three delays, ten values of memory first in each: of the synthesis, of its samples before the weighting, and of weighted samples. Then
// all harmonic inputs, those of the history up to place 144; and the outputs.
#[derive(Drop)]
pub struct Arrays {
    pub syn: [f32; 70],
    pub xs: [f32; 70],
    pub fs: [f32; 70],
    pub p: [f32; PLACES + 60],
    pub out: [f32; 60],
}

// A product taken from a sum.
fn take_product(s: f32, a: f32, b: f32) -> f32
    ensures { result ≡ s ⊖ a ⊗ b }
{
    s - a * b
}

// Sample n of the synthesis, x with the outputs before it.
fn synthesise_sample(x: f32, n: usize, aq: &[f32; 11], syn: &[f32; 70]) -> f32
    requires { n < 60 }
    ensures { result ≡ synthesised aq.now x (behind n syn.now) }
{
    let mut s = x;
    // two arrays by one index, one of them from its end: no chain says it more plainly
    for k in 0..10 {
        s = take_product(s, aq[k + 1], syn[n + 9 - k]);
    }
    s
}

impl Arrays {
    // Sample n begins: it is synthesised, and joins the delay of the synthesis and the one before the weighting.
    #[tactic(auto, unfolding(crate::specs::inner::Step::begun))]
    fn begin_sample(&mut self, n: usize, input: &[f32; 60], q: &Settings)
        requires { n < 60 }
        ensures { arrays_of self.new ≡ begun (settings_of q.now) input.now n (arrays_of self.old) }
    {
        let s = synthesise_sample(input[n], n, &q.aq, &self.syn);
        self.syn[n + 10] = s;
        self.xs[n + 10] = s;
    }

    // Sample n ends: it is weighted and joins its delay and the harmonic inputs, and is shaped.
    #[tactic(auto, unfolding(crate::specs::inner::Step::ended))]
    fn end_sample(&mut self, n: usize, q: &Settings)
        requires { n < 60 }
        ensures { arrays_of self.new ≡ ended (settings_of q.now) n (arrays_of self.old) }
    {
        let s = self.xs[n + 10];
        let f = weighting::weight_sample(s, n, &q.taps, &self.xs, &self.fs);
        self.fs[n + 10] = f;
        self.p[n + PLACES] = f;
        self.out[n] = take_product(self.p[n + PLACES], q.beta, self.p[n + PLACES - q.lag]);
    }

    // One step: sample n ends and the next begins.
    #[tactic(auto, unfolding(crate::specs::inner::Step::stepped))]
    fn step(&mut self, n: usize, input: &[f32; 60], q: &Settings)
        requires { n < 59 }
        ensures { arrays_of self.new ≡ stepped (settings_of q.now) input.now n (arrays_of self.old) }
    {
        self.end_sample(n, q);
        self.begin_sample(n + 1, input, q);
    }

    // Sixty samples. A step ends one and begins the next, so that the sums of both, each a chain of its own, run side by side.
    pub fn sixty_samples(&mut self, input: &[f32; 60], q: &Settings)
        ensures { arrays_of self.new ≡ over 0 60 (sampled (settings_of q.now) input.now) (arrays_of self.old) }
    {
        self.begin_sample(0, input, q);
        for n in 0..59 {
            self.step(n, input, q);
        }
        self.end_sample(59, q);
    }
}
