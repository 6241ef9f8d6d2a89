// The alternating fixpoint, to its end.
ghost use Rattle.std.specs.Prelude.{◌≡◌, ℕ, true, false, MatchOption};
ghost use Rattle.sets.specs.Sets.{has, In, Least};
ghost use Rattle.models.specs.Derives.{Derives, Exactly};
ghost use Rattle.settling.specs.Models.{false_in, agrees};
ghost use Rattle.settling.specs.Settling.{SettledTrue, SettledFalse, Unsettled};

use models::derive;
use rules::RuleSource;
use sets::{AtomSet, MAX_ATOMS};

// The well-founded model: every atom in neither set is settled false.
#[derive(Clone, Copy)]
pub struct WellFounded {
    pub trues: AtomSet,
    pub unsettled: AtomSet,
}

impl WellFounded {
    // The smallest atom that is not settled as a set has it.
    pub fn first_other_than(&self, set: &AtomSet) -> Option<u32>
        ensures { MatchOption result ((a : ℕ) → agrees self.now (has set.now) a ≡ true) (Least (λ a. agrees self.now (has set.now) a ≡ false)) }
    {
        (1..MAX_ATOMS + 1).find(|&atom| !self.settles_as(set, atom))
    }

    // Whether an atom is settled as a set has it.
    fn settles_as(&self, set: &AtomSet, atom: u32) -> bool
        ensures { result ≡ agrees self.now (has set.now) atom }
    {
        if set.contains(atom) {
            self.trues.contains(atom)
        } else {
            !self.trues.contains(atom) && !self.unsettled.contains(atom)
        }
    }
}

// Atoms that are settled true, those that can still be true by them, and those that these leave no doubt about.
#[derive(Clone, Copy)]
struct Round {
    low: AtomSet,
    high: AtomSet,
    next: AtomSet,
}

impl Round {
    fn after<S: RuleSource>(source: &S, low: AtomSet) -> Round
        ensures low { result.low ≡ low }
        ensures high { Exactly (has result.high) (Derives (S.RuleSource.meaning source.now) (In (has low))) }
        ensures next { Exactly (has result.next) (Derives (S.RuleSource.meaning source.now) (In (has result.high))) }
    {
        let high = derive(source, &low);
        let next = derive(source, &high);
        Round { low, high, next }
    }
}

// What the rules of a source settle.
pub fn settle<S: RuleSource>(source: &S) -> WellFounded
    ensures trues { Exactly (has result.trues) (SettledTrue (S.RuleSource.meaning source.now)) }
    ensures falses { Exactly (false_in result) (SettledFalse (S.RuleSource.meaning source.now)) }
    ensures unsettled { Exactly (has result.unsettled) (Unsettled (S.RuleSource.meaning source.now)) }
{
    let mut round = Round::after(source, AtomSet::new());
    while round.next.first_outside(&round.low).is_some() {
        round = Round::after(source, round.next);
    }
    WellFounded {
        trues: round.low,
        unsettled: round.high.difference(&round.low),
    }
}
