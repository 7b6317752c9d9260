//! A count of cases.

ghost use Rattle.std.specs.Prelude.{◌≡◌, ◌↔◌, IsTrue};
ghost use Rattle.dh_test_kit.specs.Counted.{counted};

use std::fmt;

/// How many cases were played, and how many of them were answered otherwise than wanted. Both count up to 2^64 - 1.
#[derive(Clone, Copy)]
pub struct Tally {
    cases: u64,
    differing: u64,
}

impl Tally {
    /// No case yet.
    pub fn new() -> Tally
        ensures { result ≡ record { cases = 0; differing = 0 } }
    {
        Tally {
            cases: 0,
            differing: 0,
        }
    }

    /// Counts a case, and that it differs where it was not answered as wanted.
    pub fn add(&mut self, is_as_wanted: bool)
        ensures { self.new ≡ counted is_as_wanted self.old }
    {
        self.cases = self.cases.saturating_add(1);
        if !is_as_wanted {
            self.differing = self.differing.saturating_add(1);
        }
    }

    /// Counts a case: whether the answer is the one wanted.
    pub fn compare(&mut self, got: &str, want: &str) -> bool
        ensures same { IsTrue result ↔ (got.now ≡ want.now) }
        ensures counted { self.new ≡ counted result self.old }
    {
        let is_same = got == want;
        self.add(is_same);
        is_same
    }
}

impl fmt::Display for Tally {
    ghost use Rattle.std.specs.Prelude.{Some};
    ghost use Rattle.dh_test_kit.specs.Counted.{tally_text};

    ghost output = { λ tally. Some (tally_text tally) };

    fn fmt<W: fmt::Write>(&self, f: &mut fmt::Formatter<W>) -> fmt::Result {
        let (cases, differing) = (self.cases, self.differing);
        write!(f, "{cases} cases, {differing} differ")
    }
}
