// A message file: what is told, on a line of its own, and then the code.
ghost use Rattle.std.specs.Prelude.{length};
ghost use Rattle.msgfile.specs.File.{message_in, body_in, told_then, FileRead};
ghost use Rattle.msgfile.specs.Read.{LeftWithin};

use crate::error::ReadError;
use crate::numbers::read_numbers;
use crate::source::Source;
use crate::told::read_told;
use crate::words::{skip_comments, split_line, split_word};
use std::alloc::Global;

// Behind the word `told`: its line, and then the code.
fn read_rest(alloc: Global, text: &[u8]) -> Result<Source, ReadError>
    ensures { FileRead result (told_then text.now) }
{
    let (line, rest) = split_line(text);
    let kinds = read_told(alloc, line).map_err(|error| error.further(rest.len()))?;
    let code = read_numbers(alloc, rest)?;
    Ok(Source { kinds, code })
}

// Behind spaces and comments: what is told, if anything is, and then the code.
fn read_body(alloc: Global, text: &[u8]) -> Result<Source, ReadError>
    ensures { FileRead result (body_in text.now) }
{
    let (word, rest) = split_word(text);
    if word == b"told".as_slice() {
        return read_rest(alloc, rest);
    }
    Ok(Source {
        kinds: Vec::new(alloc),
        code: read_numbers(alloc, text)?,
    })
}

// Reads a message file.
pub fn read_message(alloc: Global, text: &[u8]) -> Result<Source, ReadError>
    ensures source { FileRead result (message_in text.now) }
    ensures within { LeftWithin (length text.now) result }
{
    read_body(alloc, skip_comments(text))
}
