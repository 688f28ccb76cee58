//! Whether cells are a value of a type, or begin one: read from the type and the cells alone, without memory.
#![tactic(auto)]

mod checking;
mod definitions;
mod fields;
mod matcher;
mod number;
mod own;
mod reference;
mod run;
mod wrappers;

pub use checking::{check, valid, viable};
