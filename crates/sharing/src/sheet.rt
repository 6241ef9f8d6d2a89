// A sharing sheet: heads that jobs share, and which of them each job may go to.
mod asking;
mod loading;
mod pairs;
mod subject;

ghost use Rattle.std.specs.Prelude.{◌≡◌, ◌≤◌, length};
ghost use Rattle.sharing.specs.Limits.{max_heads, max_jobs};

use crate::limits::MAX_JOBS;

// Bit h of `heads` says that the job may go to head h, from 0 on.
#[derive(Clone, Copy, PartialEq, Eq, Debug, Default)]
pub struct Job {
    pub heads: u32,
    pub ink: u32,
}

// The first `count` jobs are those of the sheet: a vector of fixed room would not be Copy, which sheets are.
#[derive(Clone, Copy, PartialEq, Eq, Debug)]
pub struct SharingSheet {
    heads: u32,
    count: usize,
    jobs: [Job; MAX_JOBS],
    ghost least: { 1 ≤ heads },
    ghost most: { heads ≤ max_heads },
    ghost room: { count ≤ max_jobs },
    ghost places: { length jobs ≡ max_jobs },
}
