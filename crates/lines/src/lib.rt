// Calls and answers as lines of text.
#![tactic(auto)]

mod error;
mod fields;
mod reading;
mod writing;

pub use error::LineError;
pub use reading::read_line;
pub use writing::{answer_line, words_line};
