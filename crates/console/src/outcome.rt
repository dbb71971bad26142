// How a program's work came out: what is told of a refusal or a wrong call, and its end.
ghost use Rattle.console.specs.Loaded.{Ends};

use crate::program::Console;
use code::Refusal;
use msgfile::Source;
use report::Refused;
use std::process::ExitCode;
use std::{fmt, io};
use thiserror::Error;
use verifier::explain;

// How a program was called wrongly.
#[derive(Clone, Copy, Debug, Error)]
pub enum Misuse<'a> {
    #[error("{0} is no option")]
    NoOption(&'a str),
    #[error("no file is named")]
    NoFile,
}

impl Console<'_> {
    // Tells how the program was called wrongly, and where its use is told.
    pub fn tell_misuse(&self, misuse: Misuse) -> io::Result<()> {
        let program = self.program;
        self.tell(&format_args!("{misuse}; see {program} --help"))
    }

    // Tells a refusal; the label says of what.
    pub fn tell_refused<W: fmt::Display>(
        &self,
        label: &str,
        refused: &Refused<W>,
    ) -> io::Result<()> {
        self.tell(&format_args!("{label}{refused}"))
    }

    // Tells why a message is refused: of a step that isn't good, what is wrong with it.
    pub fn tell_bad(&self, source: &Source, refusal: Refusal) -> io::Result<()> {
        let flaw = match refusal {
            Refusal::Step(at) => explain(source.code.as_slice(), source.kinds.as_slice(), at),
            _ => None,
        };
        match flaw {
            Some(why) => self.tell_refused("", &Refused { refusal, why }),
            None => self.tell_refused("", &Refused::from(refusal)),
        }
    }

    // The end of a program: whether all went well gives its status, and an error is told.
    pub fn ended(&self, well: io::Result<bool>) -> ExitCode
        ensures { Ends well result }
    {
        match well {
            Ok(true) => ExitCode::SUCCESS,
            Ok(false) => ExitCode::FAILURE,
            Err(error) => {
                // Where standard error is closed too, the status alone says it.
                let _ = self.tell(&error);
                ExitCode::FAILURE
            }
        }
    }
}
