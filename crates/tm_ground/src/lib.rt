//! Closed types: the types that a file's questions lead to, with a region in place of each lifetime and a type in
//! place of each type parameter.
#![tactic(auto)]

mod closing;
mod code;
mod collector;
mod depth;
mod fault;
mod fields;
mod found;
mod grounding;
mod laws;
mod limits;
mod nodes;
mod numbering;
mod ordering;
mod regions;
mod rows;
mod stop;
mod type_set;
mod worlds;
mod written;

pub use fault::GroundErr;
pub use grounding::ground;
pub use laws::files_have_one_world;
