// Good code, or the first refusal that applies.
ghost use Rattle.std.specs.Prelude.{◌≡◌, not, drop, is_some, Some, None, MatchResult};
ghost use Rattle.code.specs.Step.{decode};
ghost use Rattle.code.specs.Code.{step_good};
ghost use Rattle.code.specs.Promise.{GoodCode};
ghost use Rattle.verifier.specs.Verdict.{flaw_of, fault_of, Lent, Refuses};

use crate::flaw::Flaw;
use crate::unchecked::Unchecked;
use code::{Code, Refusal};

// Whether code is good for these kinds; if not, the first refusal that applies: 1, 2, or 3 with the first step that isn't good.
// Code and kinds come as two slices, as `check` is lent them, whose signature is fixed; once checked they are a `Message`.
#[tactic(auto, using(crate::proofs::Scans::passed))]
pub fn verify(code: &[u8], kinds: &[u8]) -> Result<(), Refusal>
    ensures answer { MatchResult result (λ _. fault_of code.now kinds.now ≡ None) (λ f. fault_of code.now kinds.now ≡ Some f) }
    ensures exactly { MatchResult result (λ _. Lent code.now kinds.now × GoodCode kinds.now code.now) (λ f. Refuses code.now kinds.now f) }
{
    let mut unchecked = Unchecked {
        code: Code { bytes: code },
        kinds,
    };
    unchecked.limits()?;
    unchecked.scan();
    let left = unchecked.code.bytes;
    if code.is_empty() || !left.is_empty() {
        return Err(Refusal::Step(code.len() - left.len()));
    }
    Ok(())
}

// What is wrong with the step at this place, if anything is: that is what is asked, and so an `Option`. A place behind the end has no byte.
pub fn explain(code: &[u8], kinds: &[u8], at: usize) -> Option<Flaw>
    ensures value { result ≡ flaw_of kinds.now (drop at code.now) }
    ensures exactly { is_some result ≡ not (step_good decode kinds.now (drop at code.now)) }
{
    let left = Unchecked {
        code: Code {
            bytes: &code[at.min(code.len())..],
        },
        kinds,
    };
    left.behind_step().err()
}
