// Sets of atoms.
#![tactic(auto)]

mod members;
mod set;

pub use members::Members;
pub use set::{AtomSet, MAX_ATOMS};
