// A refusal as people are told it: its number, its place, and why.
ghost use Rattle.std.specs.Prelude.{◌≡◌};

use code::Refusal;
use std::fmt;

#[derive(Clone, Copy, Debug, PartialEq, Eq)]
pub struct Refused<W> {
    pub refusal: Refusal,
    pub why: W,
}

// Why, in the refusal's own words.
impl From<Refusal> for Refused<Refusal> {
    ghost from_gives = { λ refusal refused. (refused.refusal ≡ refusal) × (refused.why ≡ refusal) };

    fn from(refusal: Refusal) -> Refused<Refusal> {
        Refused {
            refusal,
            why: refusal,
        }
    }
}

impl<W: fmt::Display> fmt::Display for Refused<W> {
    fn fmt<F: fmt::Write>(&self, f: &mut fmt::Formatter<F>) -> fmt::Result {
        let number = self.refusal.number();
        let place = self.refusal.place();
        write!(f, "refused {number} at {place}: {}", self.why)
    }
}
