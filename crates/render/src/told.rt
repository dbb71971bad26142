// What a message is told, as it is lent, and tested against the kinds.
ghost use Rattle.std.specs.Prelude.{◌≡◌, ◌+◌, not, None, MatchResult, slice_index, position, zip, List, ℕ};
ghost use Rattle.render.specs.Told.{thing_ok, bad_thing, told_fault};
ghost use Rattle.render.specs.Saying.{ToldExactly};

use code::{Kind, Refusal};

#[derive(Clone, Copy, Debug)]
pub struct Told<'t, 'l> {
    // Three numbers for each thing.
    pub things: &'t [u64],
    // The letters of all texts.
    pub letters: &'l [u8],
}

impl Told<'_, '_> {
    // The longest text.
    pub(crate) const MAX_TEXT: u64 = 1 << 32;

    // Whether a thing is of its kind, and a text within the letters.
    fn is_well(&self, kind: u8, thing: &[u64; 3]) -> bool
        ensures { result ≡ thing_ok self.now.letters.now kind (slice_index thing.now 0) (slice_index thing.now 1) (slice_index thing.now 2) }
    {
        let [tag, start, len] = *thing;
        if tag != u64::from(kind) {
            return false;
        }
        let most = self.letters.len() as u64;
        match Kind::try_from(kind) {
            Ok(Kind::Number) => true,
            Ok(Kind::Text) => start <= most && len <= most - start && len <= Self::MAX_TEXT,
            Err(_) => false,
        }
    }

    // The first thing that has a kind and isn't well.
    fn first_wrong(&self, things: &[[u64; 3]], kinds: &[u8]) -> Option<usize>
        ensures { result ≡ position (bad_thing self.now.letters.now) (zip things.now kinds.now) }
    {
        things
            .iter()
            .zip(kinds)
            .position(|(thing, kind)| !self.is_well(*kind, thing))
    }

    // Whether there is one thing for each kind, and each is well; if not, the first that isn't.
    pub(crate) fn check(&self, kinds: &[u8]) -> Result<(), Refusal>
        ensures answer { MatchResult result (λ _. told_fault self.now.letters.now self.now.things.now kinds.now ≡ None) (λ f. told_fault self.now.letters.now self.now.things.now kinds.now ≡ Some f) }
        ensures exactly { ToldExactly self.now.letters.now self.now.things.now kinds.now result }
    {
        let (things, rest) = self.things.as_chunks::<3>();
        match self.first_wrong(things, kinds) {
            Some(at) => Err(Refusal::Argument(at)),
            None if rest.is_empty() && things.len() == kinds.len() => Ok(()),
            None => Err(Refusal::Argument(things.len().min(kinds.len()))),
        }
    }
}
