// msgc checks the code of messages: `good`, or the first step that isn't, and why.
#![tactic(auto)]

ghost use Rattle.report.specs.Found.{Found};

use console::{Console, Misuse, is_help, is_option};
use msgfile::Source;
use report::Verdict;
use std::io;
use std::process::ExitCode;

const HELP: &str = "msgc checks the code of messages.

usage: msgc [FILE..]

Each FILE is a message file; standard input is read for -, or if none is named.
A message file has a line with what the message is told, and its code in numbers
from 0 to 255:

    # says who has how many boats
    told name text, count number
    2 0 1 5 32 104 97 115 32 2 1 1 6 32 98 111 97 116 115 0

For each file a line is printed: `good`, or the first step that isn't good with
its place, counted from 0, and why; or the number of the refusal, its place, and
why. With several files each line begins with the file's name. A file that can't
be read is told of on standard error, by line and column.

The status is 0 if all is good, and 1 if not.

options:
  -h, --help   print this
";

// What is found of a message. A function of its own, so that its contract holds it to this message's code and kinds.
fn verdict_of(source: &Source) -> Verdict
    ensures { Found source.now.code.items source.now.kinds.items result }
{
    Verdict::of(source.code.as_slice(), source.kinds.as_slice())
}

// Checks a file, and prints the answer behind what its line begins with; whether it is good.
fn check_file(console: &Console, label: &str, path: &str) -> io::Result<bool> {
    let Some(source) = console.load_message(path)? else {
        return Ok(false);
    };
    let verdict = verdict_of(&source);
    println!(console.rt; "{label}{verdict}")?;
    Ok(verdict == Verdict::Good)
}

// Checks each file that is named, or standard input; whether all is good.
fn run(console: &Console, paths: &[String]) -> io::Result<bool> {
    match paths {
        [] => check_file(console, "", "-"),
        [path] => check_file(console, "", path.as_str()),
        _ => {
            let mut good = true;
            for path in paths {
                let label = format!(in console.rt.alloc(); "{path}: ")?;
                good &= check_file(console, label.as_str(), path.as_str())?;
            }
            Ok(good)
        }
    }
}

// Does what the words ask for; whether all is good.
fn obey(console: &Console) -> io::Result<bool> {
    let words = console.words()?;
    match words
        .iter()
        .map(String::as_str)
        .find(|word| is_option(word))
    {
        Some(word) if is_help(word) => {
            console.rt.print(HELP)?;
            Ok(true)
        }
        Some(word) => {
            console.tell_misuse(Misuse::NoOption(word))?;
            Ok(false)
        }
        None => run(console, words.as_slice()),
    }
}

fn main(rt: HostRuntime) -> ExitCode {
    let console = Console {
        rt: &rt,
        program: "msgc",
    };
    console.ended(obey(&console))
}
