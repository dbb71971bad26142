// Code, or what is left of it: bytes, gone through from the first one.
ghost use Rattle.std.specs.Prelude.{◌≡◌, drop};
ghost use Rattle.code.specs.Step.{size, decode};
ghost use Rattle.code.specs.View.{seen, Within};

use crate::step::Step;

#[derive(Clone, Copy, Debug, PartialEq, Eq)]
pub struct Code<'a> {
    pub bytes: &'a [u8],
}

impl<'a> Code<'a> {
    // The longest code.
    pub const MAX_BYTES: usize = 4096;
    // The most things that a message is told.
    pub const MAX_ARGUMENTS: usize = 16;

    // The step that begins here. The letters are cut by index: by `get`, or by a range of the rest, a check of long code took a third longer.
    pub fn step(self) -> Step<'a>
        ensures step { seen result ≡ decode self.entry.bytes.now }
        ensures within { Within self.entry.bytes.now result }
    {
        let bytes = self.bytes;
        match bytes {
            [0, ..] => Step::End,
            [1, n, ..] if *n as usize + 2 <= bytes.len() => Step::Letters(
                &bytes[2..*n as usize + 2],
            ),
            [2, i, ..] => Step::Argument(*i),
            [0..=2, ..] | [] => Step::Cut,
            [x, ..] => Step::Unknown(*x),
        }
    }

    // The step that begins here, and what is left behind it.
    pub fn split_step(self) -> (Step<'a>, Code<'a>)
        ensures step { seen result.0 ≡ decode self.entry.bytes.now }
        ensures within { Within self.entry.bytes.now result.0 }
        ensures rest { result.1.bytes.now ≡ drop (size (decode self.entry.bytes.now)) self.entry.bytes.now }
    {
        let step = self.step();
        let end = step.size().min(self.bytes.len());
        let rest = Code {
            bytes: &self.bytes[end..],
        };
        (step, rest)
    }
}
