// The code of a message: its steps and how they are read, its limits, what refuses it, and what is promised of all code.
#![tactic(auto)]

mod kind;
mod left;
mod promises;
mod refusal;
mod said;
mod step;

pub use kind::{Kind, UnknownKind};
pub use left::Code;
pub use promises::promise;
pub use refusal::Refusal;
pub use said::Said;
pub use step::Step;
