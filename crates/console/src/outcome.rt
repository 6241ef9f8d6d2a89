// What comes of a book and a plan that were read from files.
ghost use Rattle.std.specs.Prelude.{◌≡◌, string_bytes};
ghost use Rattle.books.specs.Books.{book_of_words};
ghost use Rattle.texts.specs.Files.{words_of};
ghost use Rattle.rules.specs.Tables.{program};
ghost use Rattle.console.specs.Telling.{Tells};
ghost use Rattle.console.specs.Outcomes.{Told, ToldPlan, BrokenWordFitsNoForm, most_file_bytes, LaterBytesChangeNothing};

use base::LoadError;
use books::{Book, MAX_WORDS};
use case::Case;
use std::alloc::Global;
use texts::{report_plan, words_of};

// How many bytes of a file are read: later ones would change no answer.
pub fn file_bytes() -> usize
    ensures { result ≡ most_file_bytes }
{
    4 * (MAX_WORDS + 1)
}

// Loads the words of a book and offers those of a plan: the report on the plan, or the first refusal.
#[tactic(auto, using(crate::proofs::Broken::fits_no_form, crate::proofs::Enough::first_bytes_decide))]
pub fn judge_files(heap: Global, book: &[u8], plan: &[u8]) -> Result<String, LoadError>
    ensures answer { Tells string_bytes (Told (book_of_words (words_of book.now)) (words_of plan.now)) result }
    ensures law { BrokenWordFitsNoForm × LaterBytesChangeNothing }
{
    let words = words_of(heap, book)?;
    let mut rules = Book::new(heap);
    rules.load(heap, &words)?;
    offer_plan(heap, &rules, plan)
}

fn offer_plan(heap: Global, rules: &Book, plan: &[u8]) -> Result<String, LoadError>
    ensures { Tells string_bytes (ToldPlan (program rules.now.table) (words_of plan.now)) result }
{
    let words = words_of(heap, plan)?;
    let mut case = Case::new(heap, rules)?;
    case.offer(&words)?;
    let plan = case.plan().unwrap();
    Ok(report_plan(heap, case.atom_count(), &plan)?)
}
