// A locale's rules of plural classes, known to be well formed.
ghost use Rattle.std.specs.Prelude.{◌≡◌, false, is_some};
ghost use Rattle.plural.specs.Rules.{wrong_rule};

#[derive(Clone, Copy, Debug, PartialEq, Eq)]
pub struct Locale<'a> {
    pub(crate) rules: &'a [u64],
    ghost well: { is_some (wrong_rule 20 rules.now) ≡ false },
}
