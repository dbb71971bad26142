// Code as text: numbers from 0 to 255 with spaces or comments between.
ghost use Rattle.std.specs.Prelude.{◌≡◌, ◌++◌, length, MatchResult};
ghost use Rattle.msgfile.specs.Numbers.{feed, ended, numbers_in};
ghost use Rattle.msgfile.specs.Read.{Reads, as_numbers, LeftWithin};

use crate::error::{Expected, ReadError};
use crate::words::is_space;
use std::alloc::Global;

// Where the reading of numbers stands.
#[derive(Clone, Copy, Debug, PartialEq, Eq)]
pub(crate) enum Place {
    Between,
    Number(u8),
    Comment,
}

impl Place {
    // One byte more.
    fn feed(self, byte: u8) -> Option<Place>
        ensures { result ≡ feed self byte }
    {
        match (self, byte) {
            (Place::Comment, b'\n') => Some(Place::Between),
            (Place::Comment, _) => Some(Place::Comment),
            (_, b'#') => Some(Place::Comment),
            (_, space) if is_space(space) => Some(Place::Between),
            (Place::Between, b'0'..=b'9') => Some(Place::Number(byte - b'0')),
            (Place::Number(n), b'0'..=b'9') => {
                let number = n.checked_mul(10)?.checked_add(byte - b'0')?;
                Some(Place::Number(number))
            }
            _ => None,
        }
    }

    // Where a number ends, it is added; to the vector that its caller makes, since mostly there is nothing to add.
    fn add_ended(self, next: Place, code: &mut Vec<u8>) -> Result<(), ReadError>
        ensures { MatchResult result (λ _. code.new.items ≡ code.old.items ++ ended self next) (λ e. e ≡ ReadError.Memory) }
    {
        if let (Place::Number(n), Place::Between | Place::Comment) = (self, next) {
            code.push(n)?;
        }
        Ok(())
    }
}

// The numbers of a text.
#[tactic(auto, using(crate::proofs::Reading::numbers_more, crate::proofs::Reading::numbers_stop, crate::proofs::Reading::numbers_end))]
pub(crate) fn read_numbers(alloc: Global, text: &[u8]) -> Result<Vec<u8>, ReadError>
    ensures numbers { Reads result (as_numbers (numbers_in text.now)) }
    ensures within { LeftWithin (length text.now) result }
{
    let mut code = Vec::new(alloc);
    let mut place = Place::Between;
    for (at, byte) in text.iter().enumerate() {
        let Some(next) = place.feed(*byte) else {
            return Err(ReadError::Wrong(Expected::Number, text.len() - at));
        };
        place.add_ended(next, &mut code)?;
        place = next;
    }
    place.add_ended(Place::Between, &mut code)?;
    Ok(code)
}
