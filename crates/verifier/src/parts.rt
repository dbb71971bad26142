// Making a message from code that is found good, and its parts.
ghost use Rattle.std.specs.Prelude.{◌≡◌, None, Some, MatchResult};
ghost use Rattle.code.specs.Promise.{GoodCode};
ghost use Rattle.verifier.specs.Verdict.{fault_of, Lent, Refuses};
ghost use Rattle.verifier.specs.View.{code_of, kinds_of};

use crate::faults::verify;
use crate::message::Message;
use code::{Code, Refusal};

impl<'a> Message<'a> {
    // Of code in which `verify` found no fault.
    pub fn new(code: &'a [u8], kinds: &'a [u8]) -> Message<'a>
        requires { fault_of code.now kinds.now ≡ None }
        ensures code { code_of result ≡ code.now }
        ensures kinds { kinds_of result ≡ kinds.now }
    {
        Message {
            code: Code { bytes: code },
            kinds,
        }
    }

    // Of code that is verified here; if it isn't good, the first refusal that applies.
    pub fn try_new(code: &'a [u8], kinds: &'a [u8]) -> Result<Message<'a>, Refusal>
        ensures answer { MatchResult result
            (λ m. (fault_of code.now kinds.now ≡ None) × (code_of m ≡ code.now) × (kinds_of m ≡ kinds.now))
            (λ f. fault_of code.now kinds.now ≡ Some f) }
        ensures exactly { MatchResult result (λ _. Lent code.now kinds.now × GoodCode kinds.now code.now) (λ f. Refuses code.now kinds.now f) }
    {
        verify(code, kinds)?;
        Ok(Message::new(code, kinds))
    }

    pub fn code(&self) -> Code<'a>
        ensures { result.bytes.now ≡ code_of self.now }
    {
        self.code
    }

    pub fn kinds(&self) -> &'a [u8]
        ensures { result.now ≡ kinds_of self.now }
    {
        self.kinds
    }
}
