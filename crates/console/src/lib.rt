// What the programs share: their words, the files they read, and what they tell on standard error, with the program's name in front.
#![tactic(auto)]

mod files;
mod outcome;
mod program;
mod words;

pub use outcome::Misuse;
pub use program::Console;
pub use words::{is_help, is_input, is_option};
