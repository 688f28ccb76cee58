//! Trees of the types whose bytes hang together, and of numbers that stand in them: `char`, `NonZero`, a
//! listed `Option` and the tag of an enum. With them goes what trees are put together by.
#![tactic(auto)]

mod chars;
mod members;
mod nonzero;
mod nulls;
mod tags;

pub use chars::char_tree;
pub use members::Members;
pub use nonzero::nonzero_tree;
pub use nulls::null_or;
pub use tags::tag_tree;
