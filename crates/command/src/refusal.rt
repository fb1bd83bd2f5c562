// What a call that refuses answers.
ghost use Rattle.std.specs.Prelude.{◌≡◌};
ghost use Rattle.command.specs.Refusal.{refuse};

use std::fmt;

// A refusal: the papers' number of the first rule that is broken, and the place.
// Kept (point 1): the number is the papers' own name of a rule: `sheet_rules`, `build_rules` and the answers to C have it, and any can be printed.
#[derive(Clone, Copy, PartialEq, Eq)]
pub struct Refusal {
    pub number: usize,
    pub place: usize,
}

// The answer that refuses, by a number and a place.
pub fn refuse<T>(number: usize, place: usize) -> Result<T, Refusal>
    ensures { result ≡ refuse number place }
{
    Err(Refusal { number, place })
}

// `REFUSED`, the number and the place, with single spaces.
impl fmt::Display for Refusal {
    fn fmt<W: fmt::Write>(&self, f: &mut fmt::Formatter<W>) -> fmt::Result {
        write!(f, "REFUSED {} {}", self.number, self.place)
    }
}
