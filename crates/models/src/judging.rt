// Judges whether a plan is an answer set.
ghost use Rattle.std.specs.Prelude.{◌≡◌, ℕ, ◌↔◌, Ok, MatchOption};
ghost use Rattle.sets.specs.Sets.{has, Least};
ghost use Rattle.models.specs.Derives.{AnswerSet};
ghost use Rattle.models.specs.Judging.{Unsatisfied, Judged};

use crate::derive;
use crate::firing::fires;
use base::Refusal;
use rules::RuleSource;
use sets::AtomSet;

// Passes an answer set of the source's rules, and tells of any other set why it is none.
pub fn judge<S: RuleSource>(source: &S, plan: &AtomSet) -> Result<(), Refusal>
    ensures answer { Judged (S.RuleSource.meaning source.now) (has plan.now) result }
    ensures law { (result ≡ Ok tt) ↔ AnswerSet (S.RuleSource.meaning source.now) (has plan.now) }
{
    if let Some(rule) = first_unsatisfied(source, plan) {
        return Err(Refusal::RuleNotSatisfied { rule });
    }
    let derived = derive(source, plan);
    match plan.first_outside(&derived) {
        Some(atom) => Err(Refusal::NotDerived { atom }),
        None => Ok(()),
    }
}

// The number of the first rule that a set does not satisfy.
fn first_unsatisfied<S: RuleSource>(source: &S, set: &AtomSet) -> Option<u32>
    ensures { MatchOption result ((i : ℕ) → ¬ Unsatisfied (S.RuleSource.meaning source.now) (has set.now) i) (Least (Unsatisfied (S.RuleSource.meaning source.now) (has set.now))) }
{
    (1..source.rule_count() as u32 + 1).find(|&rule| {
        let rule = rule as usize;
        fires(source, set, set, rule) && !set.contains(source.head(rule))
    })
}
