// What is lent, before it is known to be a message: its limits, and one pass over the code, from step to step, by what is left of it.
ghost use Rattle.std.specs.Prelude.{◌≡◌, zero, ◌+◌, length, drop, nat_lt, IfOk};
ghost use Rattle.std.specs.List.{position};
ghost use Rattle.std.specs.Result.{result_err};
ghost use Rattle.code.specs.Step.{size, decode};
ghost use Rattle.code.specs.Code.{bad_at};
ghost use Rattle.verifier.specs.Verdict.{flaw_of, limit_fault};

use crate::flaw::Flaw;
use code::{Code, Kind, Refusal, Step};

#[derive(Clone, Copy, Debug)]
pub(crate) struct Unchecked<'c, 'k> {
    pub(crate) code: Code<'c>,
    pub(crate) kinds: &'k [u8],
}

impl<'c> Unchecked<'c, '_> {
    // The first limit that is passed, or the first kind that is none.
    pub(crate) fn limits(self) -> Result<(), Refusal>
        ensures { result_err result ≡ limit_fault self.entry.code.bytes.now self.entry.kinds.now }
    {
        if self.code.bytes.len() > Code::MAX_BYTES {
            return Err(Refusal::LongCode);
        }
        if self.kinds.len() > Code::MAX_ARGUMENTS {
            return Err(Refusal::ManyKinds);
        }
        match odd_kind(self.kinds) {
            Some(at) => Err(Refusal::Kind(at)),
            None => Ok(()),
        }
    }

    // What is left behind the step that begins here, or what is wrong with that step.
    #[tactic(auto, unfolding(code::specs::Step::size))]
    pub(crate) fn behind_step(self) -> Result<Code<'c>, Flaw>
        ensures flaw { result_err result ≡ flaw_of self.entry.kinds.now self.entry.code.bytes.now }
        ensures rest { IfOk result (λ rest. rest.bytes.now ≡ drop (size (decode self.entry.code.bytes.now)) self.entry.code.bytes.now) }
    {
        let (step, rest) = self.code.split_step();
        match step {
            Step::End => Ok(rest),
            Step::Argument(argument) if usize::from(argument) >= self.kinds.len() => {
                Err(Flaw::Untold(argument))
            }
            Step::Letters(_) | Step::Argument(_) if rest.bytes.is_empty() => Err(Flaw::PastEnd),
            Step::Letters(_) | Step::Argument(_) => Ok(rest),
            Step::Unknown(byte) => Err(Flaw::Unknown(byte)),
            Step::Cut if self.code.bytes.is_empty() => Err(Flaw::Empty),
            Step::Cut => Err(Flaw::Cut),
        }
    }

    // Goes on to the first step that isn't good, or to the end of the code: by recursion on what is left, which is compiled to a loop.
    #[tactic(auto, using(crate::proofs::Scans::stopped, crate::proofs::Scans::went_on))]
    pub(crate) fn scan(&mut self)
        ensures { bad_at decode zero self.old.kinds.now self.old.code.bytes.now + length self.new.code.bytes.now ≡ length self.old.code.bytes.now }
    {
        if let Ok(rest) = self.behind_step() {
            self.code = rest;
            self.scan();
        }
    }
}

// The place of the first kind that is none.
fn odd_kind(kinds: &[u8]) -> Option<usize>
    ensures { result ≡ position (nat_lt 1) kinds.now }
{
    kinds.iter().position(|kind| Kind::try_from(*kind).is_err())
}
