// The entry that checks code.
ghost use Rattle.std.specs.Prelude.{◌≡◌};
ghost use Rattle.verifier.specs.Verdict.{fault_of, answer, Exactly};

use crate::faults::verify;
use code::{Refusal, Said};

// Good or bad, or the number of the refusal: 1 past a limit, 2 for a kind.
pub fn check(code: &[u8], kinds: &[u8]) -> Said
    ensures answer { result ≡ answer (fault_of code.now kinds.now) }
    ensures exactly { Exactly code.now kinds.now result }
{
    match verify(code, kinds) {
        Ok(()) => Said::Good,
        Err(Refusal::Step(_)) => Said::Bad,
        Err(refusal) => refusal.into(),
    }
}
