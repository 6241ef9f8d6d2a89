// Rule sources: whatever means a list of ground normal rules and answers questions about it.
#![tactic(auto)]

mod body;
mod lent;
mod limits;
mod literal;
mod rejection;
mod source;
mod table;

pub use body::Body;
pub use limits::{Limits, MAX_BODY, MAX_RULES, MAX_SIZE, limits_of_a_source};
pub use literal::Literal;
pub use rejection::Rejection;
pub use source::RuleSource;
pub use table::RuleTable;
