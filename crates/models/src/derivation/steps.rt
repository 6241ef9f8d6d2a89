// How a derivation starts and goes on.
ghost use Rattle.std.specs.Prelude.{◌≡◌, length};
ghost use Rattle.sets.specs.Limits.{max_atoms};
ghost use Rattle.models.specs.Listed.{left_of};
ghost use Rattle.models.specs.Following.{DoneBut, AllDone, Onward, Considered};

use super::Derivation;
use crate::firing::fires;
use crate::occurrences::Chain;
use base::Stack;
use rules::RuleSource;
use sets::AtomSet;

impl<'a, S: RuleSource> Derivation<'a, S> {
    // Considers every rule once.
    pub(super) fn start(
        source: &'a S,
        blocked: &'a AtomSet,
        slots: &'a mut [u32],
    ) -> Derivation<'a, S>
        requires { length slots.old ≡ max_atoms }
        ensures asked { (result.source.now ≡ source.now) × (result.blocked.now ≡ blocked.now) }
        ensures done { AllDone S.RuleSource.meaning result }
    {
        let mut derivation = Derivation {
            source,
            blocked,
            found: AtomSet::new(),
            waiting: Stack::over(slots),
        };
        for rule in 1..=source.rule_count() {
            derivation.consider(rule);
        }
        derivation
    }

    // Considers the rules on the chain of an atom that was taken off the waiting list.
    pub(super) fn follow(&mut self, chain: Chain<'_>)
        requires { DoneBut S.RuleSource.meaning self.old (left_of chain) }
        ensures onward { Onward self.old self.new }
        ensures done { AllDone S.RuleSource.meaning self.new }
    {
        for rule in chain {
            self.consider(rule);
        }
    }

    // Adds the head of a rule if its body holds.
    fn consider(&mut self, rule: usize)
        ensures onward { Onward self.old self.new }
        ensures considered { Considered S.RuleSource.meaning self.old self.new rule }
    {
        if fires(self.source, self.blocked, &self.found, rule) {
            // Asked only now, as a source may work long for a head.
            let head = self.source.head(rule);
            if self.found.insert(head) {
                let _ = self.waiting.push(head);
            }
        }
    }
}
