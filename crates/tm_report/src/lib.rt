//! The texts of a report: what a line says, byte for byte.
#![tactic(auto)]

mod answers;
mod cells;
mod fault;
mod lines;
mod words;

pub use answers::{line, ref_line, summary};
pub use cells::spaced_word;
pub use fault::{At, FileFault};
pub use lines::fault_line;
