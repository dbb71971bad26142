// Why a sentence can't be said.
use code::Refusal;
use report::Refused;
use std::alloc::AllocError;
use std::io;
use thiserror::Error;

#[derive(Clone, Copy, Debug, PartialEq, Eq, Error)]
pub(crate) enum Fault {
    #[error(transparent)]
    Refused(#[from] Refusal),
    #[error("thing {0} is a number, and isn't told in figures of one below 2^64")]
    NoNumber(usize),
    #[error("things told: {told}, asked for: {asked}")]
    Count { told: usize, asked: usize },
}

impl Fault {
    // As which refusal it is told.
    fn refusal(self) -> Refusal {
        match self {
            Fault::Refused(refusal) => refusal,
            Fault::NoNumber(at) => Refusal::Argument(at),
            Fault::Count { told, asked } => Refusal::Argument(told.min(asked)),
        }
    }
}

impl From<Fault> for Refused<Fault> {
    fn from(fault: Fault) -> Refused<Fault> {
        Refused {
            refusal: fault.refusal(),
            why: fault,
        }
    }
}

// Why a sentence wasn't said: it can't be, or memory or a stream failed.
#[derive(Debug, Drop, Error)]
pub(crate) enum Unsaid {
    #[error(transparent)]
    Fault(#[from] Fault),
    #[error(transparent)]
    Failed(#[from] io::Error),
}

impl From<Refusal> for Unsaid {
    fn from(refusal: Refusal) -> Unsaid {
        Unsaid::Fault(refusal.into())
    }
}

impl From<AllocError> for Unsaid {
    fn from(error: AllocError) -> Unsaid {
        Unsaid::Failed(error.into())
    }
}
