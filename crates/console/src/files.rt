// Files that are read; where one can't be, it is told why.
ghost use Rattle.console.specs.Loaded.{Loaded};

use crate::program::Console;
use crate::words::{is_input, name_of};
use msgfile::{ReadError, Source, position_of, read_message};
use std::alloc::AllocError;
use std::io::Read;
use std::{fs, io};

impl Console<'_> {
    pub fn read_input(&self) -> io::Result<Vec<u8>> {
        let mut text = Vec::new(self.rt.alloc());
        self.rt.stdin().read_to_end(&mut text)?;
        Ok(text)
    }

    fn read_file(&self, path: &str) -> io::Result<Vec<u8>> {
        if is_input(path) {
            self.read_input()
        } else {
            fs::read(self.rt, path)
        }
    }

    // The text of a file, if it can be read.
    fn text_of(&self, path: &str) -> io::Result<Option<Vec<u8>>> {
        match self.read_file(path) {
            Ok(text) => Ok(Some(text)),
            Err(error) => {
                let name = name_of(path);
                self.tell(&format_args!("{name}: {error}"))?;
                Ok(None)
            }
        }
    }

    // Tells where a text can't be read, by line and column, and what was expected there.
    fn tell_fault(&self, path: &str, text: &[u8], error: ReadError) -> io::Result<()> {
        let ReadError::Wrong(expected, left) = error else {
            return Err(AllocError.into());
        };
        let name = name_of(path);
        let position = position_of(text, left);
        self.tell(&format_args!("{name}:{position}: {expected}"))
    }

    // The message of a file, if it can be read.
    pub fn load_message(&self, path: &str) -> io::Result<Option<Source>>
        ensures { Loaded result }
    {
        let Some(text) = self.text_of(path)? else {
            return Ok(None);
        };
        match read_message(self.rt.alloc(), text.as_slice()) {
            Ok(source) => Ok(Some(source)),
            Err(error) => {
                self.tell_fault(path, text.as_slice(), error)?;
                Ok(None)
            }
        }
    }
}
