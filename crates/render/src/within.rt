// Saying within a budget of steps: all or nothing.
ghost use Rattle.std.specs.Prelude.{[]};
ghost use Rattle.code.specs.Step.{decode};
ghost use Rattle.code.specs.Code.{going, run};
ghost use Rattle.plural.specs.View.{rules_of};
ghost use Rattle.verifier.specs.View.{code_of, kinds_of};
ghost use Rattle.render.specs.Told.{told_fault};
ghost use Rattle.render.specs.View.{env_in};
ghost use Rattle.render.specs.Saying.{SaidWithin, ToldExactly};

use crate::answer::Answer;
use crate::saying::Saying;
use crate::told::Told;
use code::Refusal;
use plural::Locale;
use verifier::Message;

// Says a checked message with what it is told, in at most so many steps. The length is found first, so that the room changes only if all fits.
pub fn render_within(
    message: &Message,
    locale: &Locale,
    told: Told,
    budget: usize,
    room: &mut [u8],
) -> Result<Answer, Refusal>
    ensures answer { SaidWithin (told_fault told.entry.letters.now told.entry.things.now (kinds_of message.now)) (run decode budget (env_in (rules_of locale.now) told.entry.letters.now told.entry.things.now) (going (code_of message.now) [])) room.old room.new result }
    ensures exactly { ToldExactly told.entry.letters.now told.entry.things.now (kinds_of message.now) result }
{
    let saying = Saying::new(message, locale, told)?;
    let Some(len) = saying.length(budget) else {
        return Ok(Answer::Unfinished);
    };
    if len > room.len() as u64 {
        return Ok(Answer::Short(len));
    }
    saying.put(room);
    Ok(Answer::Spoken(len))
}
