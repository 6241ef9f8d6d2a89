// The calls of a case. Only `offer` and `hold` change it.
ghost use Rattle.std.specs.Prelude.{◌≡◌, true, ◌↔◌, IfSome, is_err, IfOk, None, Ok};
ghost use Rattle.std.specs.Option.{option_map};
ghost use Rattle.sets.specs.Sets.{has};
ghost use Rattle.models.specs.Derives.{AnswerSet};
ghost use Rattle.case.specs.Cases.{rules_of, plan_of, hold_of};
ghost use Rattle.case.specs.Calls.{Offered, IsPlan, after_offer, hold_after_offer, Proposed, status_answer};

use crate::Case;
use crate::standing::Standing;
use base::Refusal;
use lists::{read_list, write_words};
use models::judge;
use rules::{RuleSource, RuleTable};
use sets::AtomSet;
use settling::{assumable, settle};
use std::alloc::{AllocError, Global};

impl Case {
    // A case over the rules of any source, in which no plan stands.
    pub fn new<S: RuleSource>(heap: Global, source: &S) -> Result<Case, AllocError>
        ensures rules { IfOk result (λ c. rules_of c ≡ S.RuleSource.meaning source.now) }
        ensures stands { IfOk result (λ c. plan_of c ≡ None) }
        ensures held { IfOk result (λ c. hold_of c ≡ None) }
    {
        let rules = RuleTable::copy_of(heap, source)?;
        let settled = settle(&rules);
        let assumable = assumable(&rules, &settled.unsettled);
        Ok(Case {
            rules,
            settled,
            assumable,
            standing: Standing::Nothing,
        })
    }

    // Passes the words of a plan that is an answer set, and lets it stand.
    pub fn offer(&mut self, words: &[u32]) -> Result<(), Refusal>
        ensures answer { Offered (rules_of self.old) words.now result }
        ensures law { (result ≡ Ok tt) ↔ IsPlan (rules_of self.old) words.now }
        ensures stands { plan_of self.new ≡ after_offer result words.now (plan_of self.old) }
        ensures held { hold_of self.new ≡ hold_after_offer result (hold_of self.old) }
        ensures same { rules_of self.new ≡ rules_of self.old }
        ensures refused { is_err result ≡ true → self.new ≡ self.old }
    {
        let plan = read_list(words, self.rules.atom_count())?;
        judge(&self.rules, &plan)?;
        self.standing = Standing::Plan(plan);
        Ok(())
    }

    // Writes the pre-assumptions as a hold list, and answers how many.
    pub fn propose(&self, out: &mut [u32]) -> Result<usize, Refusal>
        ensures { Proposed (rules_of self.now) (plan_of self.now) out.old result out.new }
    {
        let plan = self.plan().ok_or(Refusal::NoPlan)?;
        let list = self.assumable.difference(&plan);
        write_words(&list, self.rules.atom_count(), out)
    }

    // Whether an atom is in the plan that stands.
    pub fn status(&self, atom: u32) -> Result<bool, Refusal>
        ensures { result ≡ status_answer (rules_of self.now).atoms (plan_of self.now) atom }
    {
        // No `ok_or` here: it would copy the plan once more, which takes as long as the rest.
        let Some(plan) = self.plan() else {
            return Err(Refusal::NoPlan);
        };
        if atom == 0 || atom > self.rules.atom_count() {
            return Err(Refusal::NoSuchAtom { atom });
        }
        Ok(plan.contains(atom))
    }

    // The atoms of the rules are 1 to this number.
    pub fn atom_count(&self) -> u32
        ensures { result ≡ (rules_of self.now).atoms }
    {
        self.rules.atom_count()
    }

    // The plan that stands, which is an answer set of the rules.
    pub fn plan(&self) -> Option<AtomSet>
        ensures answer { option_map has result ≡ plan_of self.now }
        ensures law { IfSome result (λ plan. AnswerSet (rules_of self.now) (has plan)) }
    {
        match self.standing {
            Standing::Nothing => None,
            Standing::Plan(plan) => Some(plan),
            Standing::Hold { plan, .. } => Some(plan),
        }
    }
}
