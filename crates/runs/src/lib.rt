// Runs of a case: any calls in any order, and their answers.
#![tactic(auto)]

mod answer;
mod call;
mod replaying;

pub use answer::{Answer, Reply};
pub use call::Call;
pub use replaying::replay;
