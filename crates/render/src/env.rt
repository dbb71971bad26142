// All that a step may look at besides the code: the locale and the arguments.
use crate::args::Args;
use plural::Locale;

#[derive(Clone, Copy, Debug)]
pub(crate) struct Env<'r, 't, 'l> {
    pub(crate) locale: Locale<'r>,
    pub(crate) args: Args<'t, 'l>,
}
