// Why a text can't be read.
ghost use Rattle.std.specs.Prelude.{◌≡◌};
ghost use Rattle.msgfile.specs.File.{moved, RoomFor};
ghost use Rattle.msgfile.specs.declared.error.ReadError.TheVariants.{Memory};

use std::alloc::{AllocError, AllocFailed};
use thiserror::Error;

// What was expected.
#[derive(Clone, Copy, Debug, PartialEq, Eq, Error)]
pub enum Expected {
    #[error("expected a number from 0 to 255")]
    Number,
    #[error("expected the name of a thing told")]
    Name,
    #[error("expected `text` or `number` behind the name")]
    Kind,
    #[error("expected a comma or the end of the line")]
    Comma,
    // The end of the line: more things are told than a file may tell.
    #[error("expected fewer things: at most 256 are read, and a message is told at most 16")]
    Fewer,
}

#[derive(Clone, Copy, Debug, PartialEq, Eq, Error)]
pub enum ReadError {
    // What was expected, and how many bytes of the text are left there.
    #[error("{0}, {1} bytes before the end")]
    Wrong(Expected, usize),
    #[error("out of memory")]
    Memory,
}

impl ReadError {
    // The same fault, with so much more of the text left.
    pub(crate) fn further(self, more: usize) -> ReadError
        requires { RoomFor more self }
        ensures { result ≡ moved more self }
    {
        match self {
            ReadError::Wrong(expected, left) => ReadError::Wrong(expected, left + more),
            ReadError::Memory => ReadError::Memory,
        }
    }
}

impl From<AllocError> for ReadError {
    ghost from_gives = { λ _ e. e ≡ Memory };

    fn from(_error: AllocError) -> ReadError {
        ReadError::Memory
    }
}

impl<T: Drop> From<AllocFailed<T>> for ReadError {
    ghost from_gives = { λ _ e. e ≡ Memory };

    fn from(_error: AllocFailed<T>) -> ReadError {
        ReadError::Memory
    }
}
