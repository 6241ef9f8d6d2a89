// The rules of a file.
ghost use Rattle.base.specs.Loading.{Read};
ghost use Rattle.rules.specs.Tables.{program};
ghost use Rattle.texts.specs.Files.{words_of};
ghost use Rattle.books.specs.Books.{book_of_words};
ghost use Rattle.sharing.specs.Encoding.{sheet_of_words};
ghost use Rattle.console.specs.Sources.{Names, sheet_rules, rules_read};

use base::LoadError;
use books::Book;
use rules::RuleTable;
use sharing::SharingSheet;
use std::alloc::Global;
use std::str::FromStr;
use texts::words_of;

#[derive(Clone, Copy, PartialEq, Eq, Debug)]
pub enum SourceKind {
    Book,
    Sharing,
}

// An argument that names no kind of source.
#[derive(Clone, Copy, PartialEq, Eq, Debug)]
pub struct UnknownSource;

impl FromStr for SourceKind {
    type Err = UnknownSource;

    ghost from_str_gives = { Names };

    fn from_str(word: &str) -> Result<SourceKind, UnknownSource> {
        match word {
            "book" => Ok(SourceKind::Book),
            "sharing" => Ok(SourceKind::Sharing),
            _ => Err(UnknownSource),
        }
    }
}

// The rules that the words of a file mean, or the first word at fault. Kind and file stay two: a struct would only be opened here.
pub(crate) fn load_rules(
    heap: Global,
    kind: SourceKind,
    file: &[u8],
) -> Result<RuleTable, LoadError>
    ensures { Read (rules_read kind (words_of file.now)) program result }
{
    let words = words_of(heap, file)?;
    match kind {
        SourceKind::Book => load_book(heap, &words),
        SourceKind::Sharing => load_sheet(heap, &words),
    }
}

// Each kind of source loads in its own way, one with the heap and one without.
fn load_book(heap: Global, words: &[u32]) -> Result<RuleTable, LoadError>
    ensures { Read (book_of_words words.now) program result }
{
    let mut book = Book::new(heap);
    book.load(heap, words)?;
    Ok(RuleTable::copy_of(heap, &book)?)
}

fn load_sheet(heap: Global, words: &[u32]) -> Result<RuleTable, LoadError>
    ensures { Read (sheet_rules (sheet_of_words words.now)) program result }
{
    let mut sheet = SharingSheet::new();
    sheet.load(words)?;
    Ok(RuleTable::copy_of(heap, &sheet)?)
}
