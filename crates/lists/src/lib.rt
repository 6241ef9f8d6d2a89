// Plans and hold lists: sets of atoms that come and go as words.
#![tactic(auto)]

mod reading;
mod writing;

pub use reading::read_list;
pub use writing::{AtomMarks, LIST_ROOM, write_words};
