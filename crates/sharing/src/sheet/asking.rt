// A sheet as a rule source: each answer is computed from the heads and the jobs.
ghost use Rattle.sharing.specs.Sheets.{sheet_of, sheet_program};
ghost use Rattle.sharing.specs.Bounds.{sheet_within};

use super::SharingSheet;
use super::subject::Subject;
use crate::counting::count_passing;
use rules::{Literal, RuleSource};

impl RuleSource for SharingSheet {
    ghost meaning = { λ s. sheet_program (sheet_of s) };

    ghost within = { sheet_within };

    fn atom_count(&self) -> u32 {
        self.pair_count() + self.job_count() as u32
    }

    fn rule_count(&self) -> usize {
        self.allowed_count() + self.job_count()
    }

    #[tactic(auto, using(crate::proofs::RuleOf::waiting_most))]
    fn head(&self, rule: usize) -> u32 {
        match self.subject(rule) {
            Subject::Pair(pair) => pair,
            Subject::WaitingJob(job) => self.pair_count() + job as u32 + 1,
            Subject::Nothing => 0,
        }
    }

    fn body_len(&self, rule: usize) -> usize {
        count_passing(&self.body_of(rule), self.pair_count())
    }

    fn literal(&self, rule: usize, place: usize) -> Literal {
        let Some(index) = place.checked_sub(1) else {
            return Literal::NONE;
        };
        self.blocker(rule, index).map_or(
            Literal::NONE,
            |atom| Literal {
                atom,
                positive: false,
            },
        )
    }
}
