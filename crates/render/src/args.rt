// The arguments of a message: things told that are known to be well told, borrowed, and the letters of their texts.
ghost use Rattle.std.specs.Prelude.{◌≡◌, ℕ, ◌+◌, ◌<◌, ◌≤◌, length, slice_index, slice_index_or, []};
ghost use Rattle.render.specs.Told.{Kept};

#[derive(Clone, Copy, Debug)]
pub(crate) struct Args<'t, 'l> {
    pub(crate) things: &'t [[u64; 3]],
    pub(crate) letters: &'l [u8],
    ghost kept: { (i : ℕ) → i < length things.now → Kept letters.now (slice_index_or things.now i []) },
}
