// Rule books: rule sources that come as words.
#![tactic(auto)]

mod book;
mod reading;

pub use book::Book;
pub use reading::MAX_WORDS;
