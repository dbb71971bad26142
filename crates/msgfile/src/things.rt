// Things told as words: numbers in figures, and texts.
ghost use Rattle.std.specs.Prelude.{◌≡◌, ◌/◌, [], length, OnErr};
ghost use Rattle.msgfile.specs.Tell.{NumberTold, TextTold, ThingTold};
ghost use Rattle.msgfile.specs.declared.things.TellError.TheVariants.{Memory};

use code::Kind;
use plural::read_figures;
use std::alloc::{AllocError, Global};
use thiserror::Error;

#[derive(Clone, Copy, Debug, PartialEq, Eq, Error)]
pub enum TellError {
    #[error("this word writes no number below 2^64")]
    NoNumber,
    #[error("out of memory")]
    Memory,
}

impl From<AllocError> for TellError {
    ghost from_gives = { λ _ e. e ≡ Memory };

    fn from(_error: AllocError) -> TellError {
        TellError::Memory
    }
}

// What was told so far.
#[derive(Debug, Drop)]
pub struct Things {
    // Three numbers for each thing, in a row, as the entries are lent them, whose form is fixed.
    pub told: Vec<u64>,
    // The letters of all texts.
    pub letters: Vec<u8>,
}

impl Things {
    pub fn new(alloc: Global) -> Things
        ensures told { result.told.items ≡ [] }
        ensures letters { result.letters.items ≡ [] }
    {
        Things {
            told: Vec::new(alloc),
            letters: Vec::new(alloc),
        }
    }

    // How many things were told.
    pub fn count(&self) -> usize
        ensures { result ≡ length self.now.told.items / 3 }
    {
        self.told.len() / 3
    }

    // A number, by the word that writes it.
    pub fn number(&mut self, word: &[u8]) -> Result<(), TellError>
        ensures told { NumberTold word.now self.old.told.items self.new.told.items result }
        ensures letters { self.new.letters.items ≡ self.old.letters.items }
    {
        let number = read_figures(word).ok_or(TellError::NoNumber)?;
        self.told.extend_from_slice(&[1, number, 0])?;
        Ok(())
    }

    // A text: its letters are put behind the others.
    pub fn text(&mut self, word: &[u8]) -> Result<(), TellError>
        ensures told { TextTold word.now self.old.told.items self.old.letters.items self.new.told.items self.new.letters.items result }
        ensures letters { OnErr result (self.new.letters.items ≡ self.old.letters.items) }
    {
        let start = self.letters.len();
        let thing = [0, start as u64, word.len() as u64];
        self.letters.extend_from_slice(word)?;
        if let Err(error) = self.told.extend_from_slice(&thing) {
            self.letters.truncate(start);
            return Err(error.into());
        }
        Ok(())
    }

    // A thing of this kind.
    pub fn thing(&mut self, kind: Kind, word: &[u8]) -> Result<(), TellError>
        ensures { ThingTold kind word.now self.old.told.items self.old.letters.items self.new.told.items self.new.letters.items result }
    {
        match kind {
            Kind::Text => self.text(word),
            Kind::Number => self.number(word),
        }
    }
}
