// The reduct of a rule source by a set: the rules with a negative atom in the set are left out, and the rest lose their negative atoms.
ghost use Rattle.std.specs.Prelude.{◌≡◌};
ghost use Rattle.sets.specs.Sets.{has};
ghost use Rattle.reducts.specs.Reducts.{unblocked, reduct};
ghost use Rattle.reducts.specs.Within.{reduct_within};

use crate::selection::{RuleTest, Selection};
use rules::{Literal, RuleSource};
use sets::AtomSet;

// The rules still have their negative atoms.
#[derive(Drop)]
pub struct Reduct<S: RuleSource> {
    rules: Selection<S, Unblocked>,
}

impl<S: RuleSource> Reduct<S> {
    pub fn new(source: S, set: AtomSet) -> Reduct<S>
        ensures rules { ⟦<Reduct<S> as RuleSource>⟧.meaning result ≡ reduct (S.RuleSource.meaning source) (has set) }
        ensures set { result.rules.test.blocking ≡ set }
    {
        Reduct {
            rules: Selection::by(source, Unblocked { blocking: set }),
        }
    }

    // The set that it was made with.
    pub fn set(&self) -> AtomSet
        ensures { result ≡ self.now.rules.test.blocking }
    {
        self.rules.test.blocking
    }
}

// Most questions go on to the selection: there is no shorter form for that.
impl<S: RuleSource> RuleSource for Reduct<S> {
    ghost meaning = { λ s. reduct (S.RuleSource.meaning s.rules.source) (has s.rules.test.blocking) };

    ghost within = { λ s. reduct_within (S.RuleSource.meaning s.rules.source) (has s.rules.test.blocking) (S.RuleSource.within s.rules.source) };

    fn atom_count(&self) -> u32 {
        self.rules.atom_count()
    }

    fn rule_count(&self) -> usize {
        self.rules.rule_count()
    }

    fn head(&self, rule: usize) -> u32 {
        self.rules.head(rule)
    }

    // The positive atoms come first.
    #[tactic(auto, using(crate::proofs::Bodies::length_behind))]
    fn body_len(&self, rule: usize) -> usize {
        self.rules.body(rule).take_while(|l| l.positive).count()
    }

    fn literal(&self, rule: usize, place: usize) -> Literal {
        let literal = self.rules.literal(rule, place);
        if literal.positive {
            literal
        } else {
            Literal::NONE
        }
    }
}

// Whether no negative atom of a rule is in a set.
#[derive(Clone, Copy)]
pub struct Unblocked {
    blocking: AtomSet,
}

impl RuleTest for Unblocked {
    ghost passes = { λ t. unblocked (has t.blocking) };

    fn keeps<S: RuleSource>(&self, source: &S, rule: usize) -> bool {
        source
            .body(rule)
            .all(|l| l.positive || !self.blocking.contains(l.atom))
    }
}
