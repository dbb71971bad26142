// A program at work.
use std::{env, fmt, io};

#[derive(Clone, Copy)]
pub struct Console<'a> {
    pub rt: &'a HostRuntime,
    // The program's name, which begins each line that it tells on standard error.
    pub program: &'a str,
}

impl Console<'_> {
    // The words behind the program's name.
    pub fn words(&self) -> io::Result<Vec<String>> {
        Ok(env::args(self.rt)?.skip(1).collect(self.rt.alloc())?)
    }

    // Tells something on standard error.
    pub fn tell<W: fmt::Display>(&self, what: &W) -> io::Result<()> {
        let program = self.program;
        eprintln!(self.rt; "{program}: {what}")
    }
}
