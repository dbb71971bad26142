// The first pass: how long what is said will be.
ghost use Rattle.std.specs.Prelude.{[]};
ghost use Rattle.code.specs.Step.{decode};
ghost use Rattle.code.specs.Code.{going, run};
ghost use Rattle.render.specs.Saying.{Measured};
ghost use Rattle.render.specs.View.{env_of};

use crate::counter::Counter;
use crate::saying::Saying;

impl Saying<'_, '_, '_, '_> {
    // How long what is said is, if a budget of steps suffices for it.
    pub(crate) fn length(mut self, budget: usize) -> Option<u64>
        ensures { Measured (run decode budget (env_of self.entry.env) (going self.entry.left.bytes.now [])) result }
    {
        let mut counter = Counter { total: 0 };
        self.walk(budget, &mut counter).then_some(counter.total)
    }
}
