// A rule of plural classes.
ghost use Rattle.std.specs.Prelude.{◌≡◌, ◌%◌, ◌<◌};
ghost use Rattle.plural.specs.Class.{rule_of};
ghost use Rattle.plural.specs.Rules.{fits};

use std::marker::Model;
use std::ops::RangeInclusive;

// It fits a number that is in one range, and of which its modulus leaves what is in the other.
#[derive(Drop)]
pub(crate) struct Rule {
    modulus: u64,
    left: RangeInclusive<u64>,
    numbers: RangeInclusive<u64>,
    pub(crate) class: usize,
}

impl Model for Rule {
    ghost use Rattle.std.specs.Prelude.{◌≡◌, false};
    ghost use Rattle.std.specs.Range.{range_inclusive_start, range_inclusive_end, range_inclusive_exhausted};
    ghost use Rattle.plural.specs.Rules.{Rule};

    ghost Value = { Rule };

    ghost view = { λ r. record { modulus = r.modulus; left_from = range_inclusive_start r.left; left_to = range_inclusive_end r.left; from = range_inclusive_start r.numbers; to = range_inclusive_end r.numbers; class = r.class } };

    ghost invariant = { λ r. (range_inclusive_exhausted r.left ≡ false) × (range_inclusive_exhausted r.numbers ≡ false) };
}

impl From<&[u64; 6]> for Rule {
    ghost from_gives = { λ numbers rule. rule ≡ rule_of numbers.now };

    fn from(numbers: &[u64; 6]) -> Rule {
        let [modulus, left_from, left_to, from, to, class] = *numbers;
        Rule {
            modulus,
            left: left_from..=left_to,
            numbers: from..=to,
            class: class as usize,
        }
    }
}

impl Rule {
    // The number's own range comes first: where it is out of that, no division is made.
    #[tactic(auto, unfolding(crate::specs::Rules::fits))]
    pub(crate) fn fits(&self, n: u64) -> bool
        requires { 0 < self.now.modulus }
        ensures { result ≡ fits self.now n }
    {
        self.numbers.contains(&n) && self.left.contains(&remainder(n, self.modulus))
    }
}

// What is left of a number by a modulus; by 1 nothing is, which is told without a division.
fn remainder(n: u64, modulus: u64) -> u64
    requires { 0 < modulus }
    ensures { result ≡ n % modulus }
{
    if modulus == 1 { 0 } else { n % modulus }
}
