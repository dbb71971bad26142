// The entries that say a message whole.
ghost use Rattle.plural.specs.View.{rules_of};
ghost use Rattle.verifier.specs.View.{code_of, kinds_of};
ghost use Rattle.render.specs.Told.{told_fault};
ghost use Rattle.render.specs.View.{env_in};
ghost use Rattle.render.specs.Saying.{SaidWhole, ToldExactly, SaySays, say_fault};

use crate::answer::Answer;
use crate::told::Told;
use crate::within::render_within;
use code::{Refusal, Said};
use plural::Locale;
use verifier::Message;

// Says a checked message with what it is told: all of it, or its length if it doesn't fit, or the refusal of the first thing that is wrong.
pub fn render(
    message: &Message,
    locale: &Locale,
    told: Told,
    room: &mut [u8],
) -> Result<Answer, Refusal>
    ensures answer { SaidWhole (told_fault told.entry.letters.now told.entry.things.now (kinds_of message.now)) (code_of message.now) (env_in (rules_of locale.now) told.entry.letters.now told.entry.things.now) room.old room.new result }
    ensures exactly { ToldExactly told.entry.letters.now told.entry.things.now (kinds_of message.now) result }
{
    let budget = message.code().bytes.len();
    render_within(message, locale, told, budget, room)
}

// Says all that is lent, checked first: the first refusal that applies, with its place, changes nothing. It is lent what `say` is, whose signature is fixed.
pub fn try_say<'a>(
    code: &'a [u8],
    kinds: &'a [u8],
    rules: &[u64],
    told: &[u64],
    letters: &[u8],
    room: &mut [u8],
) -> Result<Answer, Refusal>
    ensures { SaidWhole (say_fault code.now kinds.now rules.now letters.now told.now) code.now (env_in rules.now letters.now told.now) room.old room.new result }
{
    let message = Message::try_new(code, kinds)?;
    let locale = Locale::try_new(rules)?;
    let told = Told {
        things: told,
        letters,
    };
    render(&message, &locale, told, room)
}

// The same, with the number of the refusal alone.
pub fn say(
    code: &[u8],
    kinds: &[u8],
    rules: &[u64],
    told: &[u64],
    letters: &[u8],
    room: &mut [u8],
) -> Said
    ensures { SaySays (say_fault code.now kinds.now rules.now letters.now told.now) code.now (env_in rules.now letters.now told.now) room.old room.new result }
{
    match try_say(code, kinds, rules, told, letters, room) {
        Ok(Answer::Spoken(len)) => Said::Spoken(len),
        Ok(Answer::Short(len)) => Said::Short(len),
        Ok(Answer::Unfinished) => unreachable!(),
        Err(refusal) => refusal.into(),
    }
}
