// The class of a number: that of the first rule that fits.
ghost use Rattle.std.specs.Prelude.{◌≡◌, ◌<◌};
ghost use Rattle.plural.specs.Class.{ClassIs};
ghost use Rattle.plural.specs.Rules.{class_in};
ghost use Rattle.plural.specs.View.{rules_of};

use crate::locale::Locale;
use crate::rule::Rule;

// The class of the numbers that no rule fits.
const OTHER: usize = 5;

impl<'a> Locale<'a> {
    // The class of a number: that of the first rule that fits, and 5 if none does. It is the format's number, and names no word.
    pub fn class(&self, n: u64) -> usize
        ensures value { result ≡ class_in (rules_of self.now) n }
        ensures first { ClassIs (rules_of self.now) n result }
        ensures six { result < 6 }
    {
        self.rules
            .as_chunks::<6>()
            .0
            .iter()
            .map(Rule::from)
            .find(|rule| rule.fits(n))
            .map_or(OTHER, |rule| rule.class)
    }
}
