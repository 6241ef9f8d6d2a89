// What every layer above stands on: words, refusals and the waiting list.
#![tactic(auto)]

mod loading;
mod misfit;
mod refusal;
mod stack;
mod words;

pub use loading::LoadError;
pub use misfit::Misfit;
pub use refusal::Refusal;
pub use stack::Stack;
pub use words::{Kind, Word};
