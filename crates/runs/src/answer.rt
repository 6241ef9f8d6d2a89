// What a call answers.
use base::Refusal;

#[derive(Drop, PartialEq, Debug)]
pub enum Reply {
    Passed,
    // The words that it wrote.
    Wrote(Vec<u32>),
    // Whether the atom is in the plan.
    Told(bool),
}

pub type Answer = Result<Reply, Refusal>;
