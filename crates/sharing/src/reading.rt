// Reads a sheet word by word: the opening word, and then as many job words as it counts.
ghost use Rattle.std.specs.Prelude.{◌≤◌};
ghost use Rattle.base.specs.Words.{kind, payload};
ghost use Rattle.base.specs.Loading.{Fitted};
ghost use Rattle.sharing.specs.Limits.{max_heads};
ghost use Rattle.sharing.specs.Encoding.{counts_in, opening_misfit, job_in, job_misfit, sheet_of_words, SheetRead};

use crate::SharingSheet;
use crate::limits::{COUNT_BITS, INK_BITS, MAX_HEADS, MAX_JOBS};
use crate::sheet::Job;
use base::{Kind, Misfit, Refusal, Word};

const COUNT_MASK: u32 = (1 << COUNT_BITS) - 1;

const HEAD_MASK: u32 = (1 << MAX_HEADS) - 1;

// What an opening word counts.
#[derive(Clone, Copy)]
struct Counts {
    heads: u32,
    jobs: usize,
}

// The sheet of the words, or the refusal of the first word at fault.
pub(crate) fn read_sheet(words: &[u32]) -> Result<SharingSheet, Refusal>
    ensures { SheetRead (sheet_of_words words.now) result }
{
    let Some((first, rest)) = words.split_first() else {
        return Err(Refusal::NoForm { place: 0 });
    };
    let counts = read_opening(*first).map_err(|misfit| misfit.at(0))?;
    let mut sheet = SharingSheet::bare(counts.heads);
    for (index, word) in rest.iter().enumerate() {
        let place = index as u32 + 1;
        if index >= counts.jobs {
            return Err(Refusal::NoForm { place });
        }
        sheet.add(read_job(*word, counts.heads).map_err(|misfit| misfit.at(place))?);
    }
    if rest.len() < counts.jobs {
        return Err(Refusal::NoForm {
            place: words.len() as u32,
        });
    }
    Ok(sheet)
}

fn read_opening(word: u32) -> Result<Counts, Misfit>
    ensures { Fitted (opening_misfit (kind word) (payload word)) (counts_in (payload word)) result }
{
    let Word {
        kind: Kind::Opening,
        payload,
    } = Word::from(word)
    else {
        return Err(Misfit::NoForm);
    };
    let counts = Counts {
        heads: (payload >> COUNT_BITS) & COUNT_MASK,
        jobs: (payload & COUNT_MASK) as usize,
    };
    if counts.heads == 0 || counts.heads > MAX_HEADS || counts.jobs > MAX_JOBS {
        return Err(Misfit::PastLimit);
    }
    if payload >> (COUNT_BITS + COUNT_BITS) > 0 {
        return Err(Misfit::NoForm);
    }
    Ok(counts)
}

// A job that may go to none but the first `heads` heads.
fn read_job(word: u32, heads: u32) -> Result<Job, Misfit>
    requires { heads ≤ max_heads }
    ensures { Fitted (job_misfit heads (kind word) (payload word)) (job_in (payload word)) result }
{
    let Word {
        kind: Kind::Member,
        payload,
    } = Word::from(word)
    else {
        return Err(Misfit::NoForm);
    };
    if payload >> (INK_BITS + MAX_HEADS) > 0 {
        return Err(Misfit::NoForm);
    }
    let job = Job {
        heads: payload & HEAD_MASK,
        ink: payload >> MAX_HEADS,
    };
    if job.heads >> heads > 0 {
        return Err(Misfit::OutOfRange);
    }
    Ok(job)
}
