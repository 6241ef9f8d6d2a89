// A table as a rule source.
ghost use Rattle.std.specs.Prelude.{◌≡◌, length};
ghost use Rattle.rules.specs.Asked.{rule_at};
ghost use Rattle.rules.specs.Laid.{entry_rule, Ordered};
ghost use Rattle.rules.specs.Tables.{program, program_within};

use super::{Entry, RuleTable};
use crate::{Literal, RuleSource};

impl RuleTable {
    // Where a rule lies; of a number that is no rule's, no head and an empty body: each question would turn an Option into that.
    pub(super) fn entry(&self, rule: usize) -> Entry
        ensures lies { entry_rule self.now.body.items result ≡ rule_at (program self.now) rule }
        ensures ordered { Ordered (length self.now.body.items) result }
    {
        if rule == 0 {
            return Entry::default();
        }
        self.entries.get(rule - 1).copied().unwrap_or_default()
    }
}

impl RuleSource for RuleTable {
    ghost meaning = { program };

    ghost within = { program_within };

    fn atom_count(&self) -> u32 {
        self.atoms
    }

    fn rule_count(&self) -> usize {
        self.entries.len()
    }

    fn head(&self, rule: usize) -> u32 {
        self.entry(rule).head
    }

    fn body_len(&self, rule: usize) -> usize {
        let e = self.entry(rule);
        e.end - e.start
    }

    fn literal(&self, rule: usize, place: usize) -> Literal {
        let e = self.entry(rule);
        if place == 0 || place > e.end - e.start {
            return Literal::NONE;
        }
        let at = e.start + (place - 1);
        Literal {
            atom: self.body[at],
            positive: at < e.split,
        }
    }
}
