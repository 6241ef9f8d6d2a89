// A case: rules, and the plan and the hold list that were passed over them.
#![tactic(auto)]

mod calls;
mod case;
mod holding;
mod standing;
mod telling;

pub use case::Case;
