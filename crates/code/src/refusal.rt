// Why something lent is turned away; what each case holds is its place. The number and the place of each stand in specs/Refused.antt.
ghost use Rattle.std.specs.Prelude.{◌≡◌};
ghost use Rattle.code.specs.Refused.{number_of, place_of};

use crate::left::Code;
use thiserror::Error;

#[derive(Clone, Copy, Debug, PartialEq, Eq, Error)]
pub enum Refusal {
    #[error("the code has more than {max} bytes", max = Code::MAX_BYTES)]
    LongCode,
    #[error("more than {max} things are told", max = Code::MAX_ARGUMENTS)]
    ManyKinds,
    #[error("this kind is neither 0, a text, nor 1, a number")]
    Kind(usize),
    #[error("this step isn't good")]
    Step(usize),
    #[error("this rule isn't six numbers with a modulus of at least 1 and a class of at most 5, or is past the twentieth")]
    Rule(usize),
    #[error("this thing is missing, one too many, not of its kind, or not within the letters")]
    Argument(usize),
}

impl Refusal {
    // Its number in the format, by which the entries answer it.
    pub fn number(self) -> u64
        ensures { result ≡ number_of self }
    {
        match self {
            Refusal::LongCode | Refusal::ManyKinds => 1,
            Refusal::Kind(_) => 2,
            Refusal::Step(_) => 3,
            Refusal::Rule(_) => 4,
            Refusal::Argument(_) => 5,
        }
    }

    // Where it is, counted from 0; of the limits, 0 is the code and 1 the kinds.
    pub fn place(self) -> usize
        ensures { result ≡ place_of self }
    {
        match self {
            Refusal::LongCode => 0,
            Refusal::ManyKinds => 1,
            Refusal::Kind(at) | Refusal::Step(at) | Refusal::Rule(at) | Refusal::Argument(at) => at,
        }
    }
}
