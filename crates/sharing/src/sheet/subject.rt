// What the rules of a sheet are for, and the atoms of their negative bodies.
ghost use Rattle.std.specs.Prelude.{◌≡◌, slice_get, option_map};
ghost use Rattle.rules.specs.Asked.{minus, body, rule_at};
ghost use Rattle.sharing.specs.Sheets.{sheet_of, sheet_program};
ghost use Rattle.sharing.specs.Asked.{rule_for, blocks};

use super::SharingSheet;
use crate::counting::{PairTest, nth_passing};

// What a rule of a sheet is for. `Nothing` is asked as the others are; an Option would be opened at each question.
#[derive(Clone, Copy, PartialEq, Eq, Debug)]
pub(super) enum Subject {
    Pair(u32),
    WaitingJob(usize),
    Nothing,
}

// The pairs that stand in the negative body of a rule.
#[derive(Clone, Copy)]
pub(super) struct Body<'a> {
    sheet: &'a SharingSheet,
    subject: Subject,
}

impl SharingSheet {
    // What the rule of a number is for.
    pub(super) fn subject(&self, rule: usize) -> Subject
        ensures { rule_for (sheet_of self.now) result ≡ rule_at (sheet_program (sheet_of self.now)) rule }
    {
        let Some(place) = rule.checked_sub(1) else {
            return Subject::Nothing;
        };
        if let Some(pair) = self.allowed_pair(place) {
            return Subject::Pair(pair);
        }
        let job = place - self.allowed_count();
        if job < self.job_count() {
            Subject::WaitingJob(job)
        } else {
            Subject::Nothing
        }
    }

    // The atom at a place of a rule's negative body, counted from 0.
    pub(super) fn blocker(&self, rule: usize, place: usize) -> Option<u32>
        ensures { option_map minus result ≡ slice_get (body (rule_at (sheet_program (sheet_of self.now)) rule)) place }
    {
        nth_passing(&self.body_of(rule), self.pair_count(), place)
    }

    // The negative body of a rule.
    pub(super) fn body_of(&self, rule: usize) -> Body<'_>
        ensures sheet { result.sheet.now ≡ self.now }
        ensures subject { rule_for (sheet_of self.now) result.subject ≡ rule_at (sheet_program (sheet_of self.now)) rule }
    {
        Body {
            sheet: self,
            subject: self.subject(rule),
        }
    }
}

impl<'a> PairTest for Body<'a> {
    ghost passes = { λ b. blocks (sheet_of b.sheet.now) b.subject };

    fn holds(&self, pair: u32) -> bool {
        match self.subject {
            Subject::Pair(allowed) => self.sheet.excludes(allowed, pair),
            Subject::WaitingJob(job) => self.sheet.serves(job, pair),
            Subject::Nothing => false,
        }
    }
}
