// What a message is told, as a line of text: names with their kinds, and commas between.
ghost use Rattle.std.specs.Prelude.{◌≡◌, ◌≤◌, length, option_map, IfOk};
ghost use Rattle.code.specs.Kinds.{number_of_kind};
ghost use Rattle.msgfile.specs.Told.{kind_named, thing_in, things_in, told_in};
ghost use Rattle.msgfile.specs.Read.{Reads, ThingRead, LeftWithin};

use crate::error::{Expected, ReadError};
use crate::words::{split_word, unblanked};
use code::Kind;
use std::alloc::Global;

// The most things that a line tells: far more than a message may be told, so that too many are refused as such.
const MAX_THINGS: usize = 256;

fn kind_named(word: &[u8]) -> Option<Kind>
    ensures { option_map number_of_kind result ≡ kind_named word.now }
{
    match word {
        b"text" => Some(Kind::Text),
        b"number" => Some(Kind::Number),
        _ => None,
    }
}

// The thing at the front: its kind, and what is left behind it.
fn split_thing(text: &[u8]) -> Result<(Kind, &[u8]), ReadError>
    ensures thing { ThingRead result (thing_in text.now) }
    ensures shorter { IfOk result (λ thing. length thing.1.now ≤ length text.now) }
    ensures within { LeftWithin (length text.now) result }
{
    let text = unblanked(text);
    let (name, rest) = split_word(text);
    if name.is_empty() {
        return Err(ReadError::Wrong(Expected::Name, text.len()));
    }
    let text = unblanked(rest);
    let (word, rest) = split_word(text);
    let kind = kind_named(word).ok_or(ReadError::Wrong(Expected::Kind, text.len()))?;
    Ok((kind, rest))
}

// The kinds of all things of a line.
#[tactic(auto, using(crate::proofs::Telling::things_none, crate::proofs::Telling::thing_last))]
fn read_things(alloc: Global, line: &[u8]) -> Result<Vec<u8>, ReadError>
    ensures told { Reads result (things_in MAX_THINGS line.now) }
    ensures within { LeftWithin (length line.now) result }
{
    let mut kinds = Vec::new(alloc);
    let mut left = line;
    for _ in 0..MAX_THINGS {
        let (kind, rest) = split_thing(left)?;
        kinds.push(kind.into())?;
        match unblanked(rest) {
            [] => return Ok(kinds),
            [b',', rest @ ..] => left = rest,
            rest => return Err(ReadError::Wrong(Expected::Comma, rest.len())),
        }
    }
    Err(ReadError::Wrong(Expected::Fewer, left.len()))
}

// The kinds that a line tells; it may tell nothing.
pub(crate) fn read_told(alloc: Global, line: &[u8]) -> Result<Vec<u8>, ReadError>
    ensures told { Reads result (told_in line.now) }
    ensures within { LeftWithin (length line.now) result }
{
    if unblanked(line).is_empty() {
        return Ok(Vec::new(alloc));
    }
    read_things(alloc, line)
}
