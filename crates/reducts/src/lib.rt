// Rule sources that are made of another rule source.
#![tactic(auto)]

mod negative_reduct;
mod reduct;
mod selection;

pub use negative_reduct::NegativeReduct;
pub use reduct::Reduct;
