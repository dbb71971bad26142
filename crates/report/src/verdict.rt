// What is found of a message's code, as a line says it.
ghost use Rattle.report.specs.Found.{Found};

use crate::refused::Refused;
use code::Refusal;
use std::fmt;
use verifier::{Flaw, explain, verify};

#[derive(Clone, Copy, Debug, PartialEq, Eq)]
pub enum Verdict {
    Good,
    // The step at this byte is the first that isn't good, and what is wrong with it.
    Bad(usize, Flaw),
    // A limit is passed, or a kind is none.
    Refused(Refusal),
}

impl Verdict {
    pub fn of(code: &[u8], kinds: &[u8]) -> Verdict
        ensures { Found code.now kinds.now result }
    {
        match verify(code, kinds) {
            Ok(()) => Verdict::Good,
            Err(Refusal::Step(at)) => match explain(code, kinds, at) {
                Some(flaw) => Verdict::Bad(at, flaw),
                None => unreachable!(),
            },
            Err(refusal) => Verdict::Refused(refusal),
        }
    }
}

impl fmt::Display for Verdict {
    fn fmt<W: fmt::Write>(&self, f: &mut fmt::Formatter<W>) -> fmt::Result {
        match self {
            Verdict::Good => f.write_str("good"),
            Verdict::Bad(_, Flaw::Empty) => write!(f, "bad: {}", Flaw::Empty),
            Verdict::Bad(at, flaw) => write!(f, "bad: the step at byte {at}: {flaw}"),
            Verdict::Refused(refusal) => write!(f, "{}", Refused::from(*refusal)),
        }
    }
}
