// A message said: things are told by words or by lines, and the sentence is printed or it is told why not.
ghost use Rattle.std.specs.Iterator.{IsFinite};

use crate::fault::{Fault, Unsaid};
use code::Kind;
use console::Console;
use msgfile::{TellError, Things};
use plural::Locale;
use render::{Answer, Told, render};
use report::Refused;
use std::alloc::AllocError;
use std::io;
use std::io::Write;
use verifier::Message;

#[derive(Clone, Copy)]
pub(crate) struct Speaker<'a> {
    pub(crate) console: &'a Console<'a>,
    pub(crate) message: &'a Message<'a>,
    pub(crate) locale: &'a Locale<'a>,
}

impl Speaker<'_> {
    // One thing more: a number if that is its kind, and else a text. What is told beyond the kinds is a text too, so that it is counted.
    fn tell(&self, things: &mut Things, word: &[u8]) -> Result<(), Unsaid> {
        let at = things.count();
        let kind = match self.message.kinds().get(at) {
            Some(kind) => Kind::try_from(*kind).unwrap_or(Kind::Text),
            None => Kind::Text,
        };
        // By a match and no `?`, since it is told which thing it was.
        match things.thing(kind, word) {
            Ok(()) => Ok(()),
            Err(TellError::NoNumber) => Err(Fault::NoNumber(at).into()),
            Err(TellError::Memory) => Err(AllocError.into()),
        }
    }

    // Puts the sentence of what is told into a room of its own length, and prints it.
    fn speak(&self, told: Told) -> Result<(), Unsaid> {
        let rt = self.console.rt;
        let len = match render(self.message, self.locale, told, &mut [])? {
            Answer::Spoken(len) | Answer::Short(len) => len,
            Answer::Unfinished => unreachable!(),
        };
        let mut room = vec![in rt.alloc(); 0u8; len as usize]?;
        render(self.message, self.locale, told, room.as_mut_slice())?;
        rt.stdout().write_all(room.as_slice())?;
        println!(rt)?;
        Ok(())
    }

    // Says a sentence of the things that these words tell, if there is one for each kind.
    fn say<'w, I: Iterator<Item = &'w [u8]> + Drop>(&self, words: I) -> Result<(), Unsaid>
        requires can { I.can_next words }
        requires ends { IsFinite (I.remaining words) }
    {
        let mut things = Things::new(self.console.rt.alloc());
        for word in words {
            self.tell(&mut things, word)?;
        }
        let told = things.count();
        let asked = self.message.kinds().len();
        if told != asked {
            return Err(Fault::Count { told, asked }.into());
        }
        self.speak(Told {
            things: things.told.as_slice(),
            letters: things.letters.as_slice(),
        })
    }

    // The same; whether it was said. If it wasn't, it is told why, of a line by its number.
    fn try_say<'w, I: Iterator<Item = &'w [u8]> + Drop>(
        &self,
        line: Option<usize>,
        words: I,
    ) -> io::Result<bool>
        requires can { I.can_next words }
        requires ends { IsFinite (I.remaining words) }
    {
        match self.say(words) {
            Ok(()) => Ok(true),
            Err(Unsaid::Fault(fault)) => {
                self.tell_why(line, fault)?;
                Ok(false)
            }
            Err(Unsaid::Failed(error)) => Err(error),
        }
    }

    // Tells why a sentence wasn't said, of a line by its number.
    fn tell_why(&self, line: Option<usize>, fault: Fault) -> io::Result<()> {
        let refused = Refused::from(fault);
        match line {
            Some(number) => {
                let label = format!(in self.console.rt.alloc(); "line {number}: ")?;
                self.console.tell_refused(label.as_str(), &refused)
            }
            None => self.console.tell_refused("", &refused),
        }
    }

    // Says a sentence of the things that words tell; whether it was said.
    pub(crate) fn say_words(&self, words: &[String]) -> io::Result<bool> {
        self.try_say(None, words.iter().map(|word| word.as_bytes()))
    }

    // Says a sentence for each line of a text, which tells its things with tabs between; whether all were said.
    pub(crate) fn say_lines(&self, text: &[u8]) -> io::Result<bool> {
        let mut said = true;
        for (at, line) in text.split_inclusive(|byte| *byte == b'\n').enumerate() {
            let line = line.strip_suffix(b"\n").unwrap_or(line);
            let things = line.split(|byte| *byte == b'\t');
            said &= self.try_say(Some(at.saturating_add(1)), things)?;
        }
        Ok(said)
    }
}
