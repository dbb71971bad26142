// A step of the code as data: one variant for each row of the table, and two for what is no step.
ghost use Rattle.std.specs.Prelude.{◌≡◌};
ghost use Rattle.code.specs.Step.{size};
ghost use Rattle.code.specs.View.{seen};

#[derive(Clone, Copy, Debug, PartialEq, Eq)]
pub enum Step<'a> {
    // 0: it ends.
    End,
    // 1, n, n letters: these are said.
    Letters(&'a [u8]),
    // 2, i: argument i is said.
    Argument(u8),
    // Another first byte.
    Unknown(u8),
    // Not all of its bytes are there.
    Cut,
}

impl Step<'_> {
    // How many bytes it takes.
    #[tactic(auto, unfolding(crate::specs::Step::size))]
    pub fn size(self) -> usize
        ensures { result ≡ size (seen self.entry) }
    {
        match self {
            Step::End => 1,
            Step::Letters(letters) => 2 + letters.len(),
            Step::Argument(_) => 2,
            Step::Unknown(_) => 2,
            Step::Cut => 1,
        }
    }
}
