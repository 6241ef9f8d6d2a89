// What the program does, as functions over values.
#![tactic(auto)]

mod commands;
mod outcome;
mod printout;
mod replays;
mod sources;
mod told;

pub use commands::{Command, HELP, UnknownCommand};
pub use outcome::{file_bytes, judge_files};
pub use printout::judge_files_and_hold;
pub use replays::{replay_file, settle_file};
pub use sources::{SourceKind, UnknownSource};
pub use told::{Outcome, Telling};
