// A book and a sheet, and a case over the rules that were loaded last.
use crate::line::Line;
use crate::reply::Reply;
use base::{LoadError, Refusal};
use books::Book;
use case::Case;
use sharing::SharingSheet;
use std::alloc::{AllocError, Global};

#[derive(Drop)]
pub struct Trial {
    book: Book,
    sheet: SharingSheet,
    case: Case,
}

impl Trial {
    // An empty book, an empty sheet, and a case over the book.
    pub(crate) fn new(heap: Global) -> Result<Trial, AllocError> {
        let book = Book::new(heap);
        let case = Case::new(heap, &book)?;
        Ok(Trial {
            book,
            sheet: SharingSheet::new(),
            case,
        })
    }

    // A book or a sheet that loads begins a new case.
    pub(crate) fn answer(&mut self, heap: Global, line: Line) -> Result<Reply, LoadError> {
        match line {
            Line::Book(words) => {
                self.book.load(heap, &words)?;
                self.case = Case::new(heap, &self.book)?;
                Ok(Reply::Loaded)
            }
            Line::Sharing(words) => {
                self.sheet.load(&words)?;
                self.case = Case::new(heap, &self.sheet)?;
                Ok(Reply::Loaded)
            }
            Line::Plan(words) => {
                self.case.offer(&words)?;
                Ok(Reply::Passed)
            }
            Line::Hold(words) => {
                self.case.hold(&words)?;
                Ok(Reply::Passed)
            }
            Line::Propose { room } => {
                Ok(Reply::Words(written(heap, 0, room, |out| self.case.propose(out))?))
            }
            Line::Settled { room } => {
                Ok(Reply::Words(written(heap, 0, room, |out| self.case.settled(out))?))
            }
            Line::Report { room } => {
                Ok(Reply::Report(written(heap, 0, room, |out| self.case.report(out))?))
            }
            Line::Status { atom } => Ok(Reply::Told(self.case.status(atom)?)),
        }
    }
}

// What a call writes into a buffer of some length.
fn written<T: Copy, F: FnOnce(&mut [T]) -> Result<usize, Refusal>>(
    heap: Global,
    zero: T,
    room: u32,
    call: F,
) -> Result<Vec<T>, LoadError>
    requires { F.IsAlwaysCallable call }
{
    let mut buffer = vec![in heap; zero; room as usize]?;
    let count = call(&mut buffer)?;
    buffer.truncate(count);
    Ok(buffer)
}
