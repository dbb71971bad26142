// Arguments are made of what is told, and read by their numbers; apart from their struct, whose file may not bring in what names it.
ghost use Rattle.std.specs.Prelude.{◌≡◌, ◌<◌, length, None, MatchResult};
ghost use Rattle.code.specs.Step as step;
ghost use Rattle.code.specs.Step.{value_at};
ghost use Rattle.render.specs.Told.{told_fault, values_in, ToldWell, ThingRefused};
ghost use Rattle.render.specs.View.{holds, values_of};

use crate::arg::Arg;
use crate::args::Args;
use crate::told::Told;
use code::Refusal;

impl<'t, 'l> Args<'t, 'l> {
    // Of things that are well told for these kinds; if they aren't, the first that isn't.
    pub(crate) fn try_new(told: Told<'t, 'l>, kinds: &[u8]) -> Result<Args<'t, 'l>, Refusal>
        ensures answer { MatchResult result (λ a. (told_fault told.entry.letters.now told.entry.things.now kinds.now ≡ None) × (values_of a ≡ values_in told.entry.letters.now told.entry.things.now)) (λ f. told_fault told.entry.letters.now told.entry.things.now kinds.now ≡ Some f) }
        ensures exactly { MatchResult result (λ a. ToldWell told.entry.letters.now told.entry.things.now kinds.now × (step.kinds (values_of a) ≡ kinds.now)) (λ f. ThingRefused told.entry.letters.now told.entry.things.now kinds.now f) }
    {
        told.check(kinds)?;
        let (things, _) = told.things.as_chunks::<3>();
        Ok(Args {
            things,
            letters: told.letters,
        })
    }

    // The argument of this number.
    pub(crate) fn get(&self, i: usize) -> Arg<'l>
        requires { i < length (values_of self.now) }
        ensures { holds result ≡ value_at (values_of self.now) i }
    {
        let things = self.things;
        let [kind, first, len] = things[i];
        // As it is lent, through entries whose form is fixed: 1 for a number, and else 0. (By a pattern over the three numbers it isn't covered.)
        if kind == 1 {
            Arg::Number(first)
        } else {
            let start = first as usize;
            Arg::Text(&self.letters[start..start + len as usize])
        }
    }
}
