// The way through good code, step by step: what is said goes into a sink.
ghost use Rattle.std.specs.Prelude.{◌≡◌, true, []};
ghost use Rattle.code.specs.Step.{kinds, needs, output, decode};
ghost use Rattle.code.specs.Code.{going, run, says};
ghost use Rattle.code.specs.View.{seen};
ghost use Rattle.render.specs.Sink.{Walked};
ghost use Rattle.render.specs.View.{values_of, env_of};

use crate::arg::Arg;
use crate::env::Env;
use crate::saying::Saying;
use crate::sink::Sink;
use code::Step;

impl Env<'_, '_, '_> {
    // What a step says is put into the sink.
    #[tactic(auto, unfolding(code::specs::Step::needs, code::specs::Step::output))]
    fn say_step<S: Sink>(&self, step: Step, sink: &mut S)
        requires needs { needs (seen step) (kinds (values_of self.now.args)) ≡ true }
        requires fits { S.fits sink.old (output (seen step) (env_of self.now)) }
        ensures { S.puts sink.old (output (seen step.entry) (env_of self.now)) sink.new }
    {
        match step {
            Step::End => {}
            Step::Letters(letters) => sink.letters(letters),
            Step::Argument(i) => match self.args.get(usize::from(i)) {
                Arg::Number(n) => sink.number(n),
                Arg::Text(text) => sink.letters(text),
            },
            Step::Unknown(_) | Step::Cut => unreachable!(),
        }
    }
}

impl Saying<'_, '_, '_, '_> {
    // What is left is said, within a budget of steps, which is counted down since it is lent: by recursion on what is left, which is compiled to a loop. Whether it came to its end.
    pub(crate) fn walk<S: Sink>(&mut self, budget: usize, sink: &mut S) -> bool
        requires { S.fits sink.old (says decode (env_of self.old.env) self.old.left.bytes.now) }
        ensures { Walked S.puts (run decode budget (env_of self.old.env) (going self.old.left.bytes.now [])) sink.old sink.new result }
    {
        if budget == 0 {
            return false;
        }
        let (step, rest) = self.left.split_step();
        self.env.say_step(step, sink);
        match step {
            Step::End => true,
            _ => {
                self.left = rest;
                self.walk(budget - 1, sink)
            }
        }
    }
}
