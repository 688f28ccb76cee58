//! Words as a report shows them, and the rule of a no at one of their cells.
#![tactic(auto)]

mod reached;
mod refusal;
mod words;

pub use refusal::rule_at;
pub use words::{fit, less};
