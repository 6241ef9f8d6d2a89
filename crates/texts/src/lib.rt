// Between bytes and values: the words of a file, and the texts that the program prints.
#![tactic(auto)]

mod files;
mod full_reports;
mod marks;
mod refusals;
mod reports;
mod writing;

pub use files::words_of;
pub use full_reports::{REPORT_ROOM, write_report};
pub use refusals::{REFUSAL_ROOM, write_refusal};
pub use reports::{refusal_line, report_plan};
