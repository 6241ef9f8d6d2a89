// Hold lists: passed exactly if they are assumptions with respect to the standing plan.
ghost use Rattle.std.specs.Prelude.{◌≡◌, true, ◌↔◌, is_err, Ok};
ghost use Rattle.sets.specs.Sets.{has};
ghost use Rattle.settling.specs.Assuming.{Assumption};
ghost use Rattle.case.specs.Cases.{rules_of, plan_of, hold_of};
ghost use Rattle.case.specs.Calls.{Assumed, Held, HoldPasses, hold_after_hold};

use crate::Case;
use crate::standing::Standing;
use base::Refusal;
use lists::read_list;
use reducts::NegativeReduct;
use rules::RuleSource;
use sets::AtomSet;
use settling::settle;

impl Case {
    // Passes the words of a hold list that is an assumption, and lets it stand under the plan.
    pub fn hold(&mut self, words: &[u32]) -> Result<(), Refusal>
        ensures answer { Held (rules_of self.old) (plan_of self.old) words.now result }
        ensures law { (result ≡ Ok tt) ↔ HoldPasses (rules_of self.old) (plan_of self.old) words.now }
        ensures plan { plan_of self.new ≡ plan_of self.old }
        ensures held { hold_of self.new ≡ hold_after_hold result words.now (hold_of self.old) }
        ensures same { rules_of self.new ≡ rules_of self.old }
        ensures refused { is_err result ≡ true → self.new ≡ self.old }
    {
        let plan = self.plan().ok_or(Refusal::NoPlan)?;
        let held = read_list(words, self.rules.atom_count())?;
        self.judge_held(&plan, &held)?;
        self.standing = Standing::Hold { plan, held };
        Ok(())
    }

    // Passes an assumption with respect to a set, and tells of any other list why it is none.
    fn judge_held(&self, plan: &AtomSet, held: &AtomSet) -> Result<(), Refusal>
        ensures answer { Assumed (rules_of self.now) (has plan.now) (has held.now) result }
        ensures law { (result ≡ Ok tt) ↔ Assumption (rules_of self.now) (has plan.now) (has held.now) }
    {
        let pre = self.assumable.difference(plan);
        if let Some(atom) = held.first_outside(&pre) {
            return Err(Refusal::NotPreAssumption { atom });
        }
        let rest = NegativeReduct::new(&self.rules, *held);
        match settle(&rest).first_other_than(plan) {
            Some(atom) => Err(Refusal::NotSettled { atom }),
            None => Ok(()),
        }
    }
}
