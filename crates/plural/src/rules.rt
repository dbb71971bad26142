// The test of a locale's rules.
ghost use Rattle.std.specs.Prelude.{◌≡◌, ℕ, ◌<◌, Some, None, MatchResult, OnOk};
ghost use Rattle.plural.specs.Rules.{is_well, rules_fault, class_in, RulesWell, RuleRefused};
ghost use Rattle.plural.specs.View.{rules_of};

use crate::locale::Locale;
use code::Refusal;

impl<'a> Locale<'a> {
    // The most rules that a locale has.
    pub const MAX_RULES: usize = 20;

    // Whether rules are six numbers each, at most twenty, with a modulus of at least 1 and a class of at most 5; if not, the first that isn't.
    pub fn check(rules: &[u64]) -> Result<(), Refusal>
        ensures answer { MatchResult result (λ _. rules_fault rules.now ≡ None) (λ f. rules_fault rules.now ≡ Some f) }
        ensures exactly { MatchResult result (λ _. RulesWell rules.now) (λ f. RuleRefused rules.now f) }
        ensures six { OnOk result ((n : ℕ) → class_in rules.now n < 6) }
    {
        for (at, rule) in rules.chunks(6).enumerate() {
            if at == Self::MAX_RULES || !is_well(rule) {
                return Err(Refusal::Rule(at));
            }
        }
        Ok(())
    }

    // Of rules in which `check` found no fault.
    pub fn new(rules: &'a [u64]) -> Locale<'a>
        requires { rules_fault rules.now ≡ None }
        ensures { rules_of result ≡ rules.now }
    {
        Locale { rules }
    }

    // Of rules in which `check` finds no fault.
    pub fn try_new(rules: &'a [u64]) -> Result<Locale<'a>, Refusal>
        ensures answer { MatchResult result (λ l. (rules_fault rules.now ≡ None) × (rules_of l ≡ rules.now)) (λ f. rules_fault rules.now ≡ Some f) }
        ensures exactly { MatchResult result (λ _. RulesWell rules.now) (λ f. RuleRefused rules.now f) }
        ensures six { OnOk result ((n : ℕ) → class_in rules.now n < 6) }
    {
        Self::check(rules)?;
        Ok(Self::new(rules))
    }
}

// Whether a rule is whole, with a modulus of at least 1 and a class of at most 5. (`1..` isn't read in a slice pattern.)
fn is_well(rule: &[u64]) -> bool
    ensures { result ≡ is_well rule.now }
{
    matches!(rule, [1..=u64::MAX, _, _, _, _, 0..=5])
}
