// Message files: the code of a message and the kinds of what it is told, as text.
#![tactic(auto)]

mod error;
mod file;
mod numbers;
mod position;
mod promises;
mod source;
mod things;
mod told;
mod words;

pub use error::{Expected, ReadError};
pub use file::read_message;
pub use position::{Position, position_of};
pub use promises::promise;
pub use source::Source;
pub use things::{TellError, Things};
