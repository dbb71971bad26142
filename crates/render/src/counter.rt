// A sink that counts: how long what was put into it is.
ghost use Rattle.std.specs.Prelude.{◌≡◌, ◌+◌, ◌^◌, ◌<◌, length};
ghost use Rattle.plural.specs.Figures.{figures};
ghost use Rattle.render.specs.Counts.{counter_laws};

use crate::sink::Sink;
use plural::figures_len;

#[derive(Clone, Copy, Debug)]
pub(crate) struct Counter {
    pub(crate) total: u64,
}

impl Sink for Counter {
    ghost fits = { λ s t. s.total + length t < 2 ^ 64 };

    ghost puts = { λ s t s₁. s₁.total ≡ s.total + length t };

    ghost laws = { counter_laws };

    fn letters(&mut self, part: &[u8]) {
        self.total += part.len() as u64;
    }

    fn number(&mut self, n: u64) {
        self.total += figures_len(n) as u64;
    }
}
