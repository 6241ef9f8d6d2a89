// The pairs of a job and a head: which are allowed, and which exclude each other.
ghost use Rattle.std.specs.Prelude.{◌≡◌, ◌*◌, ◌≤◌, length, slice_get};
ghost use Rattle.sets.specs.Sets.{rising};
ghost use Rattle.sharing.specs.Limits.{max_heads, max_jobs};
ghost use Rattle.sharing.specs.Sheets.{sheet_of, job_at, pair_count, job_of, head_of, allowed, excludes, serves};

use super::{Job, SharingSheet};
use crate::counting::{PairTest, count_passing, nth_passing};

// The allowed pairs.
impl PairTest for SharingSheet {
    ghost passes = { λ s. allowed (sheet_of s) };

    fn holds(&self, pair: u32) -> bool {
        self.allows(pair)
    }
}

impl SharingSheet {
    // `few`, here and below, saves each caller to know the limits of a sheet.
    pub(super) fn job_count(&self) -> usize
        ensures value { result ≡ length (sheet_of self.now).jobs }
        ensures few { result ≤ max_jobs }
    {
        self.count
    }

    // The atoms from 1 to this number are pairs, job by job and head by head.
    pub(super) fn pair_count(&self) -> u32
        ensures value { result ≡ pair_count (sheet_of self.now) }
        ensures few { result ≤ max_jobs * max_heads }
    {
        self.job_count() as u32 * self.heads
    }

    // A job, counted from 0; past the last, one that may go to no head, which no question tells from none.
    fn job(&self, place: usize) -> Job
        ensures { result ≡ job_at (sheet_of self.now) place }
    {
        if place >= self.count {
            return Job::default();
        }
        self.jobs[place]
    }

    // The job of a pair.
    fn job_of(&self, pair: u32) -> usize
        ensures { result ≡ job_of (sheet_of self.now) pair }
    {
        (pair.saturating_sub(1) / self.heads) as usize
    }

    // The head of a pair.
    fn head_of(&self, pair: u32) -> u32
        ensures { result ≡ head_of (sheet_of self.now) pair }
    {
        pair.saturating_sub(1) % self.heads
    }

    // Whether the job of a pair may go to its head.
    #[tactic(auto, unfolding(crate::specs::Sheets::allowed))]
    pub(super) fn allows(&self, pair: u32) -> bool
        ensures { result ≡ allowed (sheet_of self.now) pair }
    {
        (self.job(self.job_of(pair)).heads >> self.head_of(pair)) & 1 == 1
    }

    // Whether an allowed pair excludes another: the same job on another head, or a job of another ink on the same head.
    #[tactic(auto, unfolding(crate::specs::Sheets::excludes))]
    pub(super) fn excludes(&self, pair: u32, other: u32) -> bool
        ensures { result ≡ excludes (sheet_of self.now) pair other }
    {
        let job = self.job_of(pair);
        let other_job = self.job_of(other);
        // Most pairs are told apart before a job is looked up.
        if self.head_of(pair) != self.head_of(other) {
            return job == other_job && self.allows(other);
        }
        self.job(job).ink != self.job(other_job).ink && self.allows(other)
    }

    // Whether a pair is an allowed one of a job.
    #[tactic(auto, unfolding(crate::specs::Sheets::serves))]
    pub(super) fn serves(&self, job: usize, pair: u32) -> bool
        ensures { result ≡ serves (sheet_of self.now) job pair }
    {
        self.job_of(pair) == job && self.allows(pair)
    }

    // The allowed pair at a place, counted from 0.
    pub(super) fn allowed_pair(&self, place: usize) -> Option<u32>
        ensures { result ≡ slice_get (rising (allowed (sheet_of self.now)) (pair_count (sheet_of self.now))) place }
    {
        nth_passing(self, self.pair_count(), place)
    }

    // How many pairs are allowed.
    pub(super) fn allowed_count(&self) -> usize
        ensures { result ≡ length (rising (allowed (sheet_of self.now)) (pair_count (sheet_of self.now))) }
    {
        count_passing(self, self.pair_count())
    }
}
