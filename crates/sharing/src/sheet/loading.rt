// Sheets are made with one head and no jobs, and loaded from words.
ghost use Rattle.std.specs.Prelude.{◌≡◌, ◌<◌, ◌≤◌, [], ◌∷◌, ◌++◌, length};
ghost use Rattle.sharing.specs.Limits.{max_heads, max_jobs};
ghost use Rattle.sharing.specs.Sheets.{sheet_of};
ghost use Rattle.sharing.specs.Encoding.{sheet_of_words, SheetLoaded};
ghost use Rattle.sharing.specs.Laws.{TakenExactlyIfEncoded, RefusedWhereNoSheetGoesOn};

use super::{Job, SharingSheet};
use crate::limits::MAX_JOBS;
use crate::reading::read_sheet;
use base::Refusal;

impl SharingSheet {
    // One head and no jobs.
    pub fn new() -> SharingSheet
        ensures { sheet_of result ≡ record { heads = 1; jobs = [] } }
    {
        SharingSheet::bare(1)
    }

    // Replaces all by what the words mean; a refusal leaves the sheet as it was.
    pub fn load(&mut self, words: &[u32]) -> Result<(), Refusal>
        ensures answer { SheetLoaded (sheet_of_words words.now) self.old result self.new }
        ensures law { TakenExactlyIfEncoded × RefusedWhereNoSheetGoesOn }
    {
        *self = read_sheet(words)?;
        Ok(())
    }

    // No jobs yet.
    pub(crate) fn bare(heads: u32) -> SharingSheet
        requires { (1 ≤ heads) × (heads ≤ max_heads) }
        ensures { sheet_of result ≡ record { heads = heads; jobs = [] } }
    {
        SharingSheet {
            heads,
            count: 0,
            jobs: [Job::default(); MAX_JOBS],
        }
    }

    // Adds a job behind the others.
    pub(crate) fn add(&mut self, job: Job)
        requires { length (sheet_of self.old).jobs < max_jobs }
        ensures { sheet_of self.new ≡ record { heads = self.old.heads; jobs = (sheet_of self.old).jobs ++ job ∷ [] } }
    {
        self.jobs[self.count] = job;
        self.count += 1;
    }
}
