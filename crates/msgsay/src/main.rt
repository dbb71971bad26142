// msgsay says a message: it reads the message from a file, is told things, and prints the sentence.
#![tactic(auto)]

mod fault;
mod speaker;

use crate::speaker::Speaker;
use console::{Console, Misuse, is_help, is_input, is_option};
use msgfile::Source;
use plural::Locale;
use std::io;
use std::process::ExitCode;
use verifier::Message;

const HELP: &str = "msgsay says a message.

usage: msgsay FILE [THING..]

FILE is a message file, or - for standard input; `msgc --help` shows one. Each
THING is told in its order: a text as it is, a number in figures. Without a
THING, if the message is told any, each line of standard input tells them,
with tabs between, and a sentence is printed for each line.

    msgsay examples/boats.msg Mara 2
    printf 'Mara\\t1\\nOle\\t2\\n' | msgsay examples/boats.msg

What can't be said is refused with a number, a place counted from 0, and why.
The status is 0 if all was said, and 1 if not.

options:
  -h, --help   print this
";

// Says what was read from the file, if it is good; `lines` are still to be read from standard input.
#[tactic(auto, unfolding(plural::specs::Rules::wrong_rule))]
fn say_source(
    console: &Console,
    source: &Source,
    words: &[String],
    lines: bool,
) -> io::Result<bool> {
    let kinds = source.kinds.as_slice();
    let message = match Message::try_new(source.code.as_slice(), kinds) {
        Ok(message) => message,
        Err(refusal) => {
            console.tell_bad(source, refusal)?;
            return Ok(false);
        }
    };
    let locale = Locale::new(&[]);
    let speaker = Speaker {
        console,
        message: &message,
        locale: &locale,
    };
    if words.is_empty() && !kinds.is_empty() && lines {
        let text = console.read_input()?;
        speaker.say_lines(text.as_slice())
    } else {
        speaker.say_words(words)
    }
}

// Does what the words ask for; whether all was said.
fn obey(console: &Console) -> io::Result<bool> {
    let words = console.words()?;
    let [path, things @ ..] = words.as_slice() else {
        console.tell_misuse(Misuse::NoFile)?;
        return Ok(false);
    };
    let path = path.as_str();
    if is_help(path) {
        console.rt.print(HELP)?;
        return Ok(true);
    }
    if is_option(path) {
        console.tell_misuse(Misuse::NoOption(path))?;
        return Ok(false);
    }
    match console.load_message(path)? {
        // Lines are read from standard input where the message isn't.
        Some(source) => say_source(console, &source, things, !is_input(path)),
        None => Ok(false),
    }
}

fn main(rt: HostRuntime) -> ExitCode {
    let console = Console {
        rt: &rt,
        program: "msgsay",
    };
    console.ended(obey(&console))
}
