// The verifier: code is good or it isn't, and then the first step that isn't good is named, and why.
#![tactic(auto)]

mod entry;
mod faults;
mod flaw;
mod message;
mod parts;
mod unchecked;

pub use entry::check;
pub use faults::{explain, verify};
pub use flaw::Flaw;
pub use message::Message;
