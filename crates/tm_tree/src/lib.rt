//! The trees of types, which say what words each type has, and the trees without what only a holder of private
//! fields may make.
#![tactic(auto)]

mod builder;
mod fields;
mod laws;
mod plain;
mod private;
mod pruning;
mod rows;
mod types;

pub use laws::type_trees_are_exact;
pub use pruning::prune;
pub use types::tree_of;
