// The kinds of what a message is told.
ghost use Rattle.std.specs.Prelude.{◌≡◌};
ghost use Rattle.code.specs.Kinds.{number_of_kind, Reads};

use thiserror::Error;

#[derive(Clone, Copy, Debug, PartialEq, Eq)]
pub enum Kind {
    Text,
    Number,
}

// A byte that is no kind.
#[derive(Clone, Copy, Debug, PartialEq, Eq, Error)]
#[error("{0} is neither 0, a text, nor 1, a number")]
pub struct UnknownKind(pub u8);

impl TryFrom<u8> for Kind {
    type Error = UnknownKind;

    ghost try_from_gives = { Reads };

    fn try_from(byte: u8) -> Result<Kind, UnknownKind> {
        match byte {
            0 => Ok(Kind::Text),
            1 => Ok(Kind::Number),
            _ => Err(UnknownKind(byte)),
        }
    }
}

impl From<Kind> for u8 {
    ghost from_gives = { λ kind byte. byte ≡ number_of_kind kind };

    fn from(kind: Kind) -> u8 {
        match kind {
            Kind::Text => 0,
            Kind::Number => 1,
        }
    }
}
