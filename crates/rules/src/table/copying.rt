// A table as an owned copy of any rule source.
ghost use Rattle.std.specs.Prelude.{◌≡◌, ◌-◌, ◌<◌, ◌≤◌, length, IfOk, OnOk};
ghost use Rattle.rules.specs.Growing.{first_rules};
ghost use Rattle.rules.specs.Tables.{program};

use super::RuleTable;
use crate::RuleSource;
use std::alloc::{AllocError, Global};

impl RuleTable {
    // Asks a source for all its rules once, and keeps them.
    pub fn copy_of<S: RuleSource>(heap: Global, source: &S) -> Result<RuleTable, AllocError>
        ensures { IfOk result (λ t. program t ≡ S.RuleSource.meaning source.now) }
    {
        let mut table = RuleTable::bare(heap, source.atom_count());
        for rule in 1..=source.rule_count() {
            table.copy_rule(source, rule)?;
        }
        Ok(table)
    }

    // Adds a rule of a source, whose rules before that one are here already.
    fn copy_rule<S: RuleSource>(&mut self, source: &S, rule: usize) -> Result<(), AllocError>
        requires { (program self.old ≡ first_rules (S.RuleSource.meaning source.now) (rule - 1)) × (0 < rule) × (rule ≤ length (S.RuleSource.meaning source.now).rules) }
        ensures { OnOk result (program self.new ≡ first_rules (S.RuleSource.meaning source.now) rule) }
    {
        self.push_rule(source.head(rule))?;
        for literal in source.body(rule) {
            self.push_literal(literal)?;
        }
        Ok(())
    }
}
