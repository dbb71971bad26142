// Saying begins with a checked message, and with what it is told.
ghost use Rattle.std.specs.Prelude.{◌≡◌, None, Some, MatchResult};
ghost use Rattle.plural.specs.View.{rules_of};
ghost use Rattle.verifier.specs.View.{code_of, kinds_of};
ghost use Rattle.render.specs.Told.{told_fault};
ghost use Rattle.render.specs.Saying.{ToldExactly};
ghost use Rattle.render.specs.View.{env_in, env_of};

use crate::args::Args;
use crate::env::Env;
use crate::saying::Saying;
use crate::told::Told;
use code::Refusal;
use plural::Locale;
use verifier::Message;

impl<'c, 'r, 't, 'l> Saying<'c, 'r, 't, 'l> {
    // Of things that are well told for the kinds of the message; if they aren't, the first that isn't.
    pub(crate) fn new(
        message: &Message<'c>,
        locale: &Locale<'r>,
        told: Told<'t, 'l>,
    ) -> Result<Saying<'c, 'r, 't, 'l>, Refusal>
        ensures answer { MatchResult result
            (λ s. (told_fault told.entry.letters.now told.entry.things.now (kinds_of message.now) ≡ None) × (s.left.bytes.now ≡ code_of message.now) × (env_of s.env ≡ env_in (rules_of locale.now) told.entry.letters.now told.entry.things.now))
            (λ f. told_fault told.entry.letters.now told.entry.things.now (kinds_of message.now) ≡ Some f) }
        ensures exactly { ToldExactly told.entry.letters.now told.entry.things.now (kinds_of message.now) result }
    {
        let args = Args::try_new(told, message.kinds())?;
        Ok(Saying {
            left: message.code(),
            env: Env {
                locale: *locale,
                args,
            },
        })
    }
}
