// The atoms that may be assumed to be false.
ghost use Rattle.std.specs.Prelude.{ℕ, ◌⊎◌, ◌↔◌};
ghost use Rattle.sets.specs.Sets.{has, In};
ghost use Rattle.rules.specs.Program.{◌∈◌};
ghost use Rattle.rules.specs.Asked.{rule_at};
ghost use Rattle.models.specs.Derives.{Exactly};
ghost use Rattle.settling.specs.Assuming.{NegativeIn};
ghost use Rattle.settling.specs.Laws.{AllPreAssumptionsAreAnAssumption};

use rules::RuleSource;
use sets::AtomSet;

// The atoms of a set that stand negatively in some rule of a source.
pub fn assumable<S: RuleSource>(source: &S, unsettled: &AtomSet) -> AtomSet
    ensures answer { Exactly (has result) (λ a. NegativeIn (S.RuleSource.meaning source.now) a × In (has unsettled.now) a) }
    ensures law { AllPreAssumptionsAreAnAssumption }
{
    let mut found = AtomSet::new();
    for rule in 1..=source.rule_count() {
        add_negative(source, rule, unsettled, &mut found);
    }
    found
}

// Adds the atoms of a set that stand negatively in a rule.
fn add_negative<S: RuleSource>(source: &S, rule: usize, unsettled: &AtomSet, found: &mut AtomSet)
    ensures { (a : ℕ) → In (has found.new) a ↔ (In (has found.old) a ⊎ ((a ∈ (rule_at (S.RuleSource.meaning source.now) rule).neg) × In (has unsettled.now) a)) }
{
    for literal in source.body(rule) {
        if !literal.positive && unsettled.contains(literal.atom) {
            let _ = found.insert(literal.atom);
        }
    }
}
