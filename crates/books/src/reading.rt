// Reads a book word by word: the opening word, then heads, each with its positive and its negative atoms.
ghost use Rattle.std.specs.Prelude.{◌≡◌, ◌^◌, ◌<◌};
ghost use Rattle.base.specs.Loading.{Read};
ghost use Rattle.rules.specs.Growing.{Added};
ghost use Rattle.rules.specs.Tables.{program};
ghost use Rattle.books.specs.Books.{book_of_words, opening_of_words, word_misfit, with_word, rejected_at};

use base::{Kind, LoadError, Misfit, Refusal, Word};
use rules::{Literal, Rejection, RuleTable};
use std::alloc::Global;

// Words of a book, the opening word among them.
pub const MAX_WORDS: usize = 8192;

// The rules of a book, or the first word at fault.
pub(crate) fn read_book(heap: Global, words: &[u32]) -> Result<RuleTable, LoadError>
    ensures { Read (book_of_words words.now) program result }
{
    let mut table = read_opening(heap, words)?;
    for (place, word) in words.iter().enumerate().skip(1) {
        add_word(&mut table, place, *word).map_err(|rejection| rejected_at(place, rejection))?;
    }
    Ok(table)
}

// Why a book is not loaded whose word at a place was not added.
fn rejected_at(place: usize, rejection: Rejection) -> LoadError
    requires { place < 2 ^ 32 }
    ensures { result ≡ rejected_at place rejection }
{
    match rejection {
        Rejection::Unfit(misfit) => LoadError::from(misfit.at(place as u32)),
        Rejection::OutOfMemory => LoadError::OutOfMemory,
    }
}

// No rules yet, over the atoms that the opening word counts.
fn read_opening(heap: Global, words: &[u32]) -> Result<RuleTable, LoadError>
    ensures { Read (opening_of_words words.now) program result }
{
    let no_form = Refusal::NoForm { place: 0 };
    let opening = Word::from(*words.first().ok_or(no_form)?);
    if opening.kind != Kind::Opening {
        return Err(LoadError::from(no_form));
    }
    let table = RuleTable::over(heap, opening.payload).map_err(|misfit| misfit.at(0))?;
    Ok(table)
}

// Adds what the word at a place means, behind the words that the table was made of.
fn add_word(table: &mut RuleTable, place: usize, word: u32) -> Result<(), Rejection>
    ensures { Added (word_misfit (program table.old) place word) (program table.old) (with_word (program table.old) word) result (program table.new) }
{
    if place >= MAX_WORDS {
        return Err(Rejection::from(Misfit::PastLimit));
    }
    let Word { kind, payload } = Word::from(word);
    // Each sign has its arm, as a test of it for each literal takes as long as the literal.
    match kind {
        Kind::Head => table.add_rule(payload),
        Kind::Positive => table.add_literal(Literal {
            atom: payload,
            positive: true,
        }),
        Kind::Negative => table.add_literal(Literal {
            atom: payload,
            positive: false,
        }),
        _ => Err(Rejection::from(Misfit::NoForm)),
    }
}
