// Where a fault is, by line and column.
ghost use Rattle.std.specs.Prelude.{◌≡◌, ◌+◌, ◌-◌, ◌^◌, ◌<◌, ◌≤◌, length, take, Some};
ghost use Rattle.msgfile.specs.Text.{moved_on, position_from, start, shown};

use std::fmt;

// A place in a text, as a person counts.
#[derive(Clone, Copy, Debug, PartialEq, Eq)]
pub struct Position {
    pub line: usize,
    pub column: usize,
}

impl Position {
    // One byte further.
    fn moved_on(self, byte: u8) -> Position
        requires line { self.line + 1 < 2 ^ 64 }
        requires column { self.column + 1 < 2 ^ 64 }
        ensures value { result ≡ moved_on self byte }
        ensures line { result.line ≤ self.line + 1 }
        ensures column { result.column ≤ self.column + 1 }
    {
        match byte {
            b'\n' => Position {
                line: self.line + 1,
                column: 1,
            },
            128..=191 => self,
            _ => Position {
                column: self.column + 1,
                ..self
            },
        }
    }
}

impl fmt::Display for Position {
    ghost output = { λ position. Some (shown position) };

    fn fmt<W: fmt::Write>(&self, f: &mut fmt::Formatter<W>) -> fmt::Result {
        write!(f, "{}:{}", self.line, self.column)
    }
}

// The position at which so many bytes of a text are left.
#[tactic(auto, using(std::proofs::lemmas::List::Sums::fold_more))]
pub fn position_of(text: &[u8], left: usize) -> Position
    ensures { result ≡ position_from start (take (length text.now - left) text.now) }
{
    let end = text.len().saturating_sub(left);
    let before = &text[0..end];
    let mut position = Position { line: 1, column: 1 };
    for byte in before {
        position = position.moved_on(*byte);
    }
    position
}
