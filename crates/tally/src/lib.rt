// The cases of a program: a line for each, and at the end how many passed and how many failed.
#![tactic(auto)]

ghost use Rattle.std.specs.Prelude.{◌≡◌, not};
ghost use Rattle.tally.specs.Counted.{counted};

// The outcomes so far, and where their lines are printed. The counts wrap, which no number of cases reaches, so that a
// further case needs no proof in the program. A line that cannot be printed is not told of.
#[derive(Drop)]
pub struct Tally<P> {
    to: P,
    pub passed: u64,
    pub failed: u64,
}

impl<P: Print> Tally<P> {
    pub fn new(to: P) -> Tally<P>
        ensures passed { result.passed ≡ 0 }
        ensures failed { result.failed ≡ 0 }
    {
        Tally {
            to,
            passed: 0,
            failed: 0,
        }
    }

    // Counts an outcome.
    pub fn count(&mut self, holds: bool)
        ensures passed { self.new.passed ≡ counted holds self.old.passed }
        ensures failed { self.new.failed ≡ counted (not holds) self.old.failed }
    {
        if holds {
            self.passed = self.passed.wrapping_add(1);
        } else {
            self.failed = self.failed.wrapping_add(1);
        }
    }

    // Prints a case's line and counts its outcome.
    pub fn case(&mut self, name: &str, holds: bool)
        ensures passed { self.new.passed ≡ counted holds self.old.passed }
        ensures failed { self.new.failed ≡ counted (not holds) self.old.failed }
    {
        let outcome = if holds { "ok" } else { "FAILED" };
        let _ = println!(self.to; "{name}: {outcome}");
        self.count(holds);
    }

    // Prints how many passed and how many failed.
    pub fn finish(&self) {
        let passed = self.passed;
        let failed = self.failed;
        let _ = println!(self.to; "{passed} passed, {failed} failed");
    }
}
