//! The answer to one question.
#![tactic(auto)]

mod automaton;
mod question;
mod values;
mod walks;

pub use question::{judge, refusal};
pub use values::judge_values;
