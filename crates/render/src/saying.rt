// A message that is being said: what is left of its good code, and all that a step may look at besides.
ghost use Rattle.std.specs.Prelude.{◌≡◌, ◌≤◌, true, length};
ghost use Rattle.code.specs.Step.{kinds, decode};
ghost use Rattle.code.specs.Code.{good};
ghost use Rattle.render.specs.View.{values_of};

use crate::env::Env;
use code::Code;

#[derive(Clone, Copy, Debug)]
pub(crate) struct Saying<'c, 'r, 't, 'l> {
    pub(crate) left: Code<'c>,
    pub(crate) env: Env<'r, 't, 'l>,
    ghost short: { length left.bytes.now ≤ 4096 },
    ghost good: { good decode (kinds (values_of env.args)) left.bytes.now ≡ true },
}
