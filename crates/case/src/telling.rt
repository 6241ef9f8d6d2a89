// What a case tells without any change: what its rules settle, and the report on what stands.
ghost use Rattle.std.specs.Prelude.{not, ◌&&◌, nat_le};
ghost use Rattle.sets.specs.Limits.{max_atoms};
ghost use Rattle.sets.specs.Sets.{has};
ghost use Rattle.case.specs.Cases.{rules_of, plan_of, hold_of};
ghost use Rattle.case.specs.Calls.{node_word, SettledTold, Reported};

use crate::Case;
use crate::standing::Standing;
use base::{Kind, Refusal, Word};
use lists::{AtomMarks, write_words};
use rules::RuleSource;
use sets::MAX_ATOMS;
use settling::WellFounded;
use texts::write_report;

impl Case {
    // Writes a node word for each atom that the rules settle, and answers how many.
    pub fn settled(&self, out: &mut [u32]) -> Result<usize, Refusal>
        ensures { SettledTold (rules_of self.now) out.old result out.new }
    {
        let statuses = Statuses {
            settled: self.settled,
        };
        write_words(&statuses, self.rules.atom_count(), out)
    }

    // Writes the report on the plan and the hold list that stand, and answers how many bytes.
    pub fn report(&self, out: &mut [u8]) -> Result<usize, Refusal>
        ensures { Reported (rules_of self.now) (plan_of self.now) (hold_of self.now) out.old result out.new }
    {
        let Standing::Hold { plan, held } = self.standing else {
            return Err(Refusal::NoHoldList);
        };
        write_report(
            out,
            self.rules.atom_count(),
            &plan,
            &held,
            &self.settled.unsettled,
        )
    }
}

// A settled atom is marked by a node word of its status.
#[derive(Clone, Copy)]
struct Statuses {
    settled: WellFounded,
}

impl AtomMarks for Statuses {
    ghost marked = { λ s a. nat_le a max_atoms && not (has s.settled.unsettled a) };

    ghost word = { λ s. node_word (has s.settled.trues) };

    fn word_for(&self, atom: u32) -> Option<u32> {
        if atom > MAX_ATOMS || self.settled.unsettled.contains(atom) {
            return None;
        }
        let kind = if self.settled.trues.contains(atom) {
            Kind::TrueNode
        } else {
            Kind::FalseNode
        };
        Some(u32::from(Word {
            kind,
            payload: atom,
        }))
    }
}
