//! A walk through two automata at once, for any quantifier.
//!
//! A source word is written, and as many bytes as the target has are read: its fit. A quantifier is asked
//! about it place by place: whether it stops there, or whether all that follows is skipped, given whether
//! the cells so far are viable, that is begin a word of the target, and whether the target ends there. A
//! word is sought at the first place at which the quantifier stops on it. `walk` finds the least word of
//! those that are sought earliest, or says that none is.
//!
//! `ForAll` stops where the cells aren't viable: it seeks the word that the target refuses first. `Exists`
//! stops at the target's end where they are, and seeks the least word that fits. What the two mean, with no
//! places in it, is said by `for_all_seeks_refusals` and `exists_seeks_examples`.
//!
//! The walk goes in layers. A layer has the pairs of sets of states, of the source and the target, that as
//! many cells reach, each pair once and in the order of the least cells that reach it: from earlier pairs
//! first, and from one pair by lesser cells first. So the first pair on which the quantifier stops is that
//! of the least cells. They are found along the ways back, of which numbers alone are kept, and completed
//! to a source word, least cell by least cell. A source's references are its own, a target's are asked of
//! a `RefTest`. Behind the source's last byte only uninitialised ones follow.
//!
//! A pair is expanded once, by the classes of its sets, which costs one step. Where both automata have one
//! state at each place at most, at most one pair of a layer is expanded. A call that takes memory may
//! answer `Memory`; nothing else fails.
//!
//! `is_included` asks only whether each source word fits, and names no word. It goes through single states
//! of the source, each with the least of the target's sets, so that alternatives that overlap don't
//! multiply. `first_refusal` asks it before it walks.
#![tactic(auto)]

mod advance;
mod antichain;
mod completion;
mod group;
mod history;
mod inclusion;
mod laws;
mod layer;
mod live;
mod obligation;
mod pairs;
mod quantifier;
mod reading;
mod refusal;
mod sets;
mod walking;
mod way;

pub use inclusion::is_included;
pub use laws::{exists_seeks_examples, for_all_seeks_refusals};
pub use quantifier::{Exists, ForAll, Quantifier};
pub use refusal::first_refusal;
pub use walking::{Found, walk};
