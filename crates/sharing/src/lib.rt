// Sharing sheets: rule sources that compute their rules from heads, jobs and inks.
#![tactic(auto)]

mod counting;
mod limits;
mod reading;
mod sheet;

pub use limits::{INK_BITS, MAX_HEADS, MAX_JOBS};
pub use sheet::SharingSheet;
