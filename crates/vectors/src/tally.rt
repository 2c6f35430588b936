// What a comparison counts: lines, rows or bytes.
ghost use Rattle.std.specs.Prelude.{◌≡◌, ◌+◌, ◌^◌, ◌<◌};

use std::fmt;

// How many agree, and how many do not.
#[derive(Clone, Copy, PartialEq, Eq, Debug)]
pub struct Tally {
    pub equal: usize,
    pub different: usize,
    ghost fits: { equal + different < 2 ^ 64 },
}

impl Tally {
    ghost use Rattle.vectors.specs.Tally.{counts_of, total_of, counted};

    // Nothing is counted yet.
    pub fn new() -> Tally
        ensures { counts_of result ≡ (0, 0) }
    {
        Tally {
            equal: 0,
            different: 0,
        }
    }

    // How many are counted.
    pub fn total(self) -> usize
        ensures { result ≡ total_of self }
    {
        self.equal + self.different
    }

    // The tally with one more, by whether it agrees.
    pub fn counted(self, agrees: bool) -> Tally
        requires { total_of self + 1 < 2 ^ 64 }
        ensures { counts_of result ≡ counted (counts_of self) agrees }
    {
        let Tally { equal, different } = self;
        if agrees {
            Tally {
                equal: equal + 1,
                different,
            }
        } else {
            Tally {
                equal,
                different: different + 1,
            }
        }
    }
}

impl fmt::Display for Tally {
    fn fmt<W: fmt::Write>(&self, f: &mut fmt::Formatter<W>) -> fmt::Result {
        let equal = self.equal;
        let different = self.different;
        write!(f, "equal {equal} different {different}")
    }
}
