// What is wrong with a step.
use thiserror::Error;

#[derive(Clone, Copy, Debug, PartialEq, Eq, Error)]
pub enum Flaw {
    #[error("there is no step")]
    Empty,
    #[error("no step begins with {0}")]
    Unknown(u8),
    #[error("the code ends before the step does")]
    Cut,
    #[error("thing {0} isn't told")]
    Untold(u8),
    #[error("it would go on behind the end of the code")]
    PastEnd,
}
