// The negative reduct of a rule source by a set: the rules with a head in the set are left out.
ghost use Rattle.std.specs.Prelude.{◌≡◌};
ghost use Rattle.sets.specs.Sets.{has};
ghost use Rattle.reducts.specs.Reducts.{head_outside, negative_reduct};

use crate::selection::{RuleTest, Selection};
use rules::RuleSource;
use sets::AtomSet;

pub type NegativeReduct<S> = Selection<S, HeadOutside>;

impl<S: RuleSource> NegativeReduct<S> {
    pub fn new(source: S, set: AtomSet) -> NegativeReduct<S>
        ensures rules { ⟦<NegativeReduct<S> as RuleSource>⟧.meaning result ≡ negative_reduct (S.RuleSource.meaning source) (has set) }
        ensures set { result.test.excluded ≡ set }
    {
        Selection::by(source, HeadOutside { excluded: set })
    }

    // The set that it was made with.
    pub fn set(&self) -> AtomSet
        ensures { result ≡ self.now.test.excluded }
    {
        self.test.excluded
    }
}

// Whether the head of a rule is outside a set.
#[derive(Clone, Copy)]
pub struct HeadOutside {
    excluded: AtomSet,
}

impl RuleTest for HeadOutside {
    ghost passes = { λ t. head_outside (has t.excluded) };

    fn keeps<S: RuleSource>(&self, source: &S, rule: usize) -> bool {
        !self.excluded.contains(source.head(rule))
    }
}
