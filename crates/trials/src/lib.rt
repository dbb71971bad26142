// Trials: what the library answers on examples, run beside the proofs.
#![tactic(auto)]

#[cfg(test)]
mod classes;
#[cfg(test)]
mod files;
#[cfg(test)]
mod helpers;
#[cfg(test)]
mod refusals;
#[cfg(test)]
mod rooms;
#[cfg(test)]
mod sentences;
#[cfg(test)]
mod verdicts;
