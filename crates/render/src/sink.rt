// Where what is said goes: it is counted, or put into a room.
ghost use Rattle.std.specs.Prelude.{List, ℕ};
ghost use Rattle.plural.specs.Figures.{figures};
ghost use Rattle.render.specs.Sink.{SinkLaws};

pub(crate) trait Sink {
    // Whether a text fits behind what is there.
    ghost fits: { Self → List ℕ → Type 0 };

    // What is there before, a text that is put behind it, and what is there then.
    ghost puts: { Self → List ℕ → Self → Type 0 };

    // A text may be put part by part.
    ghost laws: { SinkLaws fits puts };

    fn letters(&mut self, part: &[u8])
        requires { fits self.old part.now }
        ensures { puts self.old part.now self.new };

    fn number(&mut self, n: u64)
        requires { fits self.old (figures n) }
        ensures { puts self.old (figures n) self.new };
}
