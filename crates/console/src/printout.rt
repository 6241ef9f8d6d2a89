// What comes of a book, a plan and a hold list that were read from files.
ghost use Rattle.std.specs.Prelude.{◌≡◌, Some, vec_items};
ghost use Rattle.sets.specs.Sets.{Atoms};
ghost use Rattle.books.specs.Books.{book_of_words};
ghost use Rattle.case.specs.Cases.{rules_of, plan_of, hold_of};
ghost use Rattle.texts.specs.Files.{words_of};
ghost use Rattle.console.specs.Telling.{Tells};
ghost use Rattle.console.specs.Outcomes.{BrokenWordFitsNoForm, LaterBytesChangeNothing};
ghost use Rattle.console.specs.Printouts.{ToldAll, ToldRules, Reporting, BrokenWordFitsNoSheet, LaterBytesChangeNoSheet};
ghost use Rattle.console.specs.Passing.{Passing};

use crate::SourceKind;
use crate::sources::load_rules;
use base::{LoadError, Refusal};
use case::Case;
use rules::RuleSource;
use std::alloc::Global;
use texts::{REPORT_ROOM, words_of};

// Loads the words of a book, offers those of a plan and holds those of a hold list: the report, or the first refusal.
// It has another report than `judge_files`, with a letter for each atom.
#[tactic(auto, using(crate::proofs::Broken::fits_no_form, crate::proofs::Broken::fits_no_sheet, crate::proofs::Enough::first_bytes_decide, crate::proofs::Enough::first_bytes_decide_sheets))]
pub fn judge_files_and_hold(
    heap: Global,
    book: &[u8],
    plan: &[u8],
    hold: &[u8],
) -> Result<Vec<u8>, LoadError>
    ensures answer { Tells vec_items (ToldAll (book_of_words (words_of book.now)) (words_of plan.now) (words_of hold.now)) result }
    ensures law { BrokenWordFitsNoForm × LaterBytesChangeNothing }
    ensures sheets { BrokenWordFitsNoSheet × LaterBytesChangeNoSheet }
{
    let rules = load_rules(heap, SourceKind::Book, book)?;
    judge_lists(heap, &rules, plan, hold)
}

fn judge_lists<S: RuleSource>(
    heap: Global,
    rules: &S,
    plan: &[u8],
    hold: &[u8],
) -> Result<Vec<u8>, LoadError>
    ensures { Tells vec_items (ToldRules (S.RuleSource.meaning rules.now) (words_of plan.now) (words_of hold.now)) result }
{
    let plan = words_of(heap, plan)?;
    let hold = words_of(heap, hold)?;
    let mut case = Case::new(heap, rules)?;
    pass(&mut case, &plan, &hold)?;
    report(heap, &case)
}

// Offers a plan, and then holds a list under it.
fn pass(case: &mut Case, plan: &[u32], hold: &[u32]) -> Result<(), Refusal>
    ensures same { rules_of case.new ≡ rules_of case.old }
    ensures passing { Passing (rules_of case.old) plan.now hold.now result (plan_of case.new) (hold_of case.new) }
{
    case.offer(plan)?;
    case.hold(hold)
}

// The report on what stands. Each such call has its own promise for what is kept of the buffer, so there is no function for all.
fn report(heap: Global, case: &Case) -> Result<Vec<u8>, LoadError>
    ensures { (M A : Atoms) → plan_of case.now ≡ Some M → hold_of case.now ≡ Some A → Tells vec_items (Reporting (rules_of case.now) M A) result }
{
    let mut text = vec![in heap; 0; REPORT_ROOM]?;
    let count = case.report(&mut text)?;
    text.truncate(count);
    Ok(text)
}
