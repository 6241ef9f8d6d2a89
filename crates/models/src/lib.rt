// Models of rules: what they derive, and their answer sets.
#![tactic(auto)]

mod derivation;
mod firing;
mod judging;
mod occurrences;

pub use derivation::derive;
pub use judging::judge;
