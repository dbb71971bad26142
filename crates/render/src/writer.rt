// A sink that writes: a room, and how much of it is written. The place is kept beside the room, since what stands before it is part of what was promised.
ghost use Rattle.std.specs.Prelude.{◌+◌, ◌≤◌, length};
ghost use Rattle.plural.specs.Figures.{figures};
ghost use Rattle.render.specs.Room.{Written};
ghost use Rattle.render.specs.Writes.{writer_laws};

use crate::sink::Sink;
use itoa::write_digits;
use plural::figures_len;

#[derive(Drop)]
pub(crate) struct Writer<'a> {
    pub(crate) room: &'a mut [u8],
    pub(crate) at: usize,
}

impl Sink for Writer<'_> {
    ghost fits = { λ s t. s.at + length t ≤ length s.room.now };

    ghost puts = { Written };

    ghost laws = { writer_laws };

    #[tactic(auto, using(std::proofs::lemmas::Slice::overwrites))]
    fn letters(&mut self, part: &[u8]) {
        let at = self.at;
        let end = at + part.len();
        self.room[at..end].copy_from_slice(part);
        self.at = end;
    }

    // Straight into the room: a few figures cost less to write than to copy.
    fn number(&mut self, n: u64) {
        let end = self.at + figures_len(n);
        write_digits(n, self.room, end);
        self.at = end;
    }
}
