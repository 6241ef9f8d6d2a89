// Derives what follows from rules, by following each derived atom once.
mod steps;

ghost use Rattle.std.specs.Prelude.{◌≡◌, ℕ, ◌≤◌, length};
ghost use Rattle.sets.specs.Limits.{max_atoms};
ghost use Rattle.sets.specs.Sets.{has, size, In};
ghost use Rattle.base.specs.Stacks.{items, room};
ghost use Rattle.rules.specs.Program.{◌∈◌};
ghost use Rattle.models.specs.Derives.{Derives, Exactly};
ghost use Rattle.models.specs.Reducts.{DerivesIsLeastClosedUnderTheReduct};

use crate::occurrences::Occurrences;
use base::Stack;
use rules::RuleSource;
use sets::{AtomSet, MAX_ATOMS};

// An atom waits at most once.
const WAITING_PLACES: usize = MAX_ATOMS as usize;

// Only derived atoms are found, some of which wait to be followed; and there is room for all that are not found.
// They wait on a stack over a lent slice, a form that the project asks for.
#[derive(Drop)]
struct Derivation<'a, S: RuleSource> {
    source: &'a S,
    blocked: &'a AtomSet,
    found: AtomSet,
    waiting: Stack<'a, u32>,
    ghost derived: { (a : ℕ) → In (has found) a → ∥ Derives (S.RuleSource.meaning source.now) (In (has blocked.now)) a ∥₁ },
    ghost waits: { (a : ℕ) → a ∈ items waiting → In (has found) a },
    ghost fewer: { length (items waiting) ≤ size found },
    ghost spacious: { room waiting ≡ max_atoms },
}

// The least set that is closed under the reduct of the source's rules by a set.
pub fn derive<S: RuleSource>(source: &S, blocked: &AtomSet) -> AtomSet
    ensures answer { Exactly (has result) (Derives (S.RuleSource.meaning source.now) (In (has blocked.now))) }
    ensures law { DerivesIsLeastClosedUnderTheReduct }
{
    let mut occurrences = Occurrences::new();
    occurrences.enter_all(source);
    let mut slots = [0; WAITING_PLACES];
    let mut derivation = Derivation::start(source, blocked, &mut slots);
    while let Some(atom) = derivation.waiting.pop() {
        derivation.follow(occurrences.rules_of(atom));
    }
    derivation.found
}
