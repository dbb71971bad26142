// What the entries answer: a fixed form, in which a refusal is its number alone.
ghost use Rattle.std.specs.Prelude.{◌≡◌};
ghost use Rattle.code.specs.Refused.{refused_as};

use crate::refusal::Refusal;

#[derive(Clone, Copy, Debug, PartialEq, Eq)]
pub enum Said {
    Good,
    Bad,
    // How long what was said is.
    Spoken(u64),
    // How long a room it takes.
    Short(u64),
    // The number of the refusal.
    Refused(u64),
}

impl From<Refusal> for Said {
    ghost from_gives = { λ refusal said. said ≡ refused_as refusal };

    fn from(refusal: Refusal) -> Said {
        Said::Refused(refusal.number())
    }
}
