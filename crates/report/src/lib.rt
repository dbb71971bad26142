// Answers in words, for whoever runs the programs.
#![tactic(auto)]

mod refused;
mod verdict;

pub use refused::Refused;
pub use verdict::Verdict;
