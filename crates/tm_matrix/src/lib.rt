//! Which types of a world may be taken as which: a matrix of marks, with a line for each type.
#![tactic(auto)]

mod known;
mod marks;

pub use marks::{Line, Mark, matrix};
