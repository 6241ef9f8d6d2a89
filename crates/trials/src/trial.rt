// A book, and a case over the rules that it last loaded.
use crate::line::Line;
use crate::reply::Reply;
use base::LoadError;
use books::Book;
use case::Case;
use std::alloc::{AllocError, Global};

#[derive(Drop)]
pub struct Trial {
    book: Book,
    case: Case,
}

impl Trial {
    // An empty book, and a case over it.
    pub(crate) fn new(heap: Global) -> Result<Trial, AllocError> {
        let book = Book::new(heap);
        let case = Case::new(heap, &book)?;
        Ok(Trial { book, case })
    }

    // A book that loads begins a new case.
    pub(crate) fn answer(&mut self, heap: Global, line: Line) -> Result<Reply, LoadError> {
        match line {
            Line::Book(words) => {
                self.book.load(heap, &words)?;
                self.case = Case::new(heap, &self.book)?;
                Ok(Reply::Loaded)
            }
            Line::Plan(words) => {
                self.case.offer(&words)?;
                Ok(Reply::Passed)
            }
            Line::Status { atom } => Ok(Reply::Told(self.case.status(atom)?)),
        }
    }
}
