// What rules settle without any plan, and which atoms may be assumed to be false.
#![tactic(auto)]

mod assuming;
mod settling;

pub use assuming::assumable;
pub use settling::{WellFounded, settle};
