// Tables grow by a rule or a literal at a time, and never past what a rule source may be.
ghost use Rattle.std.specs.Prelude.{◌≡◌, ◌+◌, ◌^◌, ◌<◌, ◌≤◌, [], length, None, MatchResult};
ghost use Rattle.sets.specs.Limits.{max_atoms};
ghost use Rattle.std.specs.Result.{result_err};
ghost use Rattle.base.specs.declared.misfit.Misfit.TheVariants.{PastLimit};
ghost use Rattle.rules.specs.Program.{weight};
ghost use Rattle.rules.specs.Growing.{with_rule, with_literal, rule_misfit, literal_misfit, last_rule, before, Added};
ghost use Rattle.rules.specs.Laws.{RuleAddedExactlyIfWithin, LiteralAddedExactlyIfWithin};
ghost use Rattle.rules.specs.Laid.{entry_rule, longer_entry, Ordered};
ghost use Rattle.rules.specs.Tables.{program};

use super::{Entry, RuleTable};
use crate::{Literal, MAX_BODY, MAX_RULES, MAX_SIZE, Rejection};
use base::Misfit;
use sets::MAX_ATOMS;
use std::alloc::{AllocError, Global};

impl RuleTable {
    // No atoms and no rules.
    pub fn new(heap: Global) -> RuleTable
        ensures { program result ≡ record { atoms = 0; rules = [] } }
    {
        RuleTable::bare(heap, 0)
    }

    // No rules, over the atoms 1 to a number.
    pub fn over(heap: Global, atoms: u32) -> Result<RuleTable, Misfit>
        ensures { MatchResult result (λ t. (atoms ≤ max_atoms) × (program t ≡ record { atoms = atoms; rules = [] })) (λ m. (max_atoms < atoms) × (m ≡ PastLimit)) }
    {
        if atoms > MAX_ATOMS {
            return Err(Misfit::PastLimit);
        }
        Ok(RuleTable::bare(heap, atoms))
    }

    pub(super) fn bare(heap: Global, atoms: u32) -> RuleTable
        requires { atoms ≤ max_atoms }
        ensures { program result ≡ record { atoms = atoms; rules = [] } }
    {
        RuleTable {
            atoms,
            entries: Vec::new(heap),
            body: Vec::new(heap),
        }
    }

    // Adds a rule with an empty body behind the others.
    #[tactic(auto, using(crate::proofs::Exactly::rule_exactly))]
    pub fn add_rule(&mut self, head: u32) -> Result<(), Rejection>
        ensures answer { Added (rule_misfit (program self.old) head) (program self.old) (with_rule (program self.old) head) result (program self.new) }
        ensures law { RuleAddedExactlyIfWithin }
    {
        self.fits_rule(head)?;
        self.push_rule(head)?;
        Ok(())
    }

    // Adds a literal at the end of the last rule's body. It and its parts are inlined: a reader of words knows the sign.
    #[tactic(auto, using(crate::proofs::Exactly::literal_exactly))]
    #[inline]
    pub fn add_literal(&mut self, literal: Literal) -> Result<(), Rejection>
        ensures answer { Added (literal_misfit (program self.old) literal) (program self.old) (with_literal (program self.old) literal) result (program self.new) }
        ensures law { LiteralAddedExactlyIfWithin }
    {
        self.fits_literal(literal)?;
        self.push_literal(literal)?;
        Ok(())
    }

    // Rules plus body atoms.
    fn size(&self) -> usize
        ensures { result ≡ weight (program self.now).rules }
    {
        self.entries.len() + self.body.len()
    }

    fn fits_rule(&self, head: u32) -> Result<(), Misfit>
        ensures { result_err result ≡ rule_misfit (program self.now) head }
    {
        if self.entries.len() >= MAX_RULES || self.size() >= MAX_SIZE {
            return Err(Misfit::PastLimit);
        }
        if head == 0 || head > self.atoms {
            return Err(Misfit::OutOfRange);
        }
        Ok(())
    }

    #[inline]
    fn fits_literal(&self, literal: Literal) -> Result<(), Misfit>
        ensures { result_err result ≡ literal_misfit (program self.now) literal }
    {
        let last = self.last_entry();
        if last.end - last.start >= MAX_BODY || self.size() >= MAX_SIZE {
            return Err(Misfit::PastLimit);
        }
        if self.entries.is_empty() {
            return Err(Misfit::NoForm);
        }
        if literal.positive && last.split < last.end {
            return Err(Misfit::NoForm);
        }
        if literal.atom == 0 || literal.atom > self.atoms {
            return Err(Misfit::OutOfRange);
        }
        if literal.atom <= self.last_before(literal) {
            return Err(Misfit::NotRising);
        }
        Ok(())
    }

    #[inline]
    fn last_entry(&self) -> Entry
        ensures lies { entry_rule self.now.body.items result ≡ last_rule (program self.now) }
        ensures ordered { Ordered (length self.now.body.items) result }
    {
        self.entry(self.entries.len())
    }

    // The last atom of the run that a literal goes into, or 0, which every atom is above.
    #[inline]
    fn last_before(&self, literal: Literal) -> u32
        ensures { result ≡ before (last_rule (program self.now)) literal }
    {
        let last = self.last_entry();
        let run = if literal.positive {
            &self.body[last.start..last.split]
        } else {
            &self.body[last.split..last.end]
        };
        run.last().copied().unwrap_or(0)
    }

    pub(super) fn push_rule(&mut self, head: u32) -> Result<(), AllocError>
        requires { rule_misfit (program self.old) head ≡ None }
        ensures { MatchResult result (λ _. program self.new ≡ with_rule (program self.old) head) (λ _. program self.new ≡ program self.old) }
    {
        let at = self.body.len();
        self.entries.push(Entry {
            head,
            start: at,
            split: at,
            end: at,
        })?;
        Ok(())
    }

    #[inline]
    pub(super) fn push_literal(&mut self, literal: Literal) -> Result<(), AllocError>
        requires { literal_misfit (program self.old) literal ≡ None }
        ensures { MatchResult result (λ _. program self.new ≡ with_literal (program self.old) literal) (λ _. program self.new ≡ program self.old) }
    {
        let last = self.entries.len() - 1;
        let entry = self.entries[last].longer(literal.positive);
        self.body.push(literal.atom)?;
        self.entries[last] = entry;
        Ok(())
    }
}

impl Entry {
    // The entry with one body atom more.
    fn longer(self, positive: bool) -> Entry
        requires { (self.split ≤ self.end) × (self.end + 1 < 2 ^ 64) }
        ensures { result ≡ longer_entry self positive }
    {
        Entry {
            split: self.split + usize::from(positive),
            end: self.end + 1,
            ..self
        }
    }
}
