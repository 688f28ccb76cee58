//! Sizes, alignments and places of types, and which types have no layout that is guaranteed: the Rust
//! Reference, "Type layout".
#![tactic(auto)]

mod definitions;
mod enums;
mod facts;
mod faults;
mod fields;
mod filling;
mod layouts;
mod making;
mod parts;
mod placing;
mod reached;
mod refused;
mod row;
mod transparent;
mod unions;
mod weights;
mod wrappers;
mod written;

pub use layouts::{Layout, Layouts};
pub use refused::first_refused;
