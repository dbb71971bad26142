// Saying: a message with its arguments, in a locale, put into a room.
#![tactic(auto)]

mod answer;
mod arg;
mod args;
mod arguments;
mod begin;
mod counter;
mod entry;
mod env;
mod length;
mod promises;
mod put;
mod saying;
mod sink;
mod told;
mod walk;
mod within;
mod writer;

pub use answer::Answer;
pub use entry::{render, say, try_say};
pub use promises::promise;
pub use told::Told;
pub use within::render_within;
