//! Byte automata: the words of a tree, read cell by cell.
//!
//! `Auto::build` makes the automaton of a tree that has no private part and whose words all have one
//! size; a reference has 4 or 8 cells. Its words are the tree's, whatever its references may hold: the
//! joined lists of cells that the labels of a path spell from the start to the end. In a joined list a
//! later byte of a reference directly follows the byte before it. Edges go down in number, and the end
//! is state 0. There is one start, or none where there is no word. Each state lies on a word, where a
//! target reference may also hold itself, and stands at one place in the words; the end alone stands
//! behind the last cell. A tree in which no alternative has two members has one state at each place at
//! most: `Auto::has_one_state_a_layer` tells by how many states and cells there are.
//!
//! `start` and `step` lead from set to set. A set is seen as the rising list of its states, so two sets
//! with the same states are equal. A step leads to a state exactly where an edge from the set does that
//! passes the symbol. It passes a range of bytes as a whole or not at all, an uninitialised byte only
//! where nothing is asked, and a reference's byte where the test of references holds. A joined list in
//! which no reference holds itself reaches some state exactly where a word begins with it, in the middle
//! of a reference too, and a state where a target reference may begin exactly where that reference,
//! holding itself, may stand behind it. For a source, whose references are their own, each list reaches
//! a state that begins a word, and what it reaches is joined. Where a byte of a reference is passed so
//! is the next one: a refused reference is refused at its first byte.
//!
//! `classes` answers the symbols by which two sets are walked together: in the order of cells, each cell
//! that the source's set can take in exactly one, and each passing the same edges of both sets as any of
//! its cells. A byte begins a class where a label of either set begins or has ended. Most sets are left by
//! one edge, and most pairs of such have one class: `only_step` answers it at once with both steps.
//! `least_step` answers the least cell on from a set of a source's, with the step by it.
//!
//! Crates above prove from `Auto::law`, which promises what holds of every automaton.
//!
//! The builder goes from the end of the words to their beginning, in front of one state. A tree's words
//! begin by ways, for which no state stands until something stands in front of them: the ways of an
//! alternative's members leave one state. So there are at most as many edges as the tree has leaves.
//! Before trees are grown one after another, or as members of an alternative, they are asked whether
//! they have words and cells: what has none is passed by, and no state is put in vain. Repetition and
//! sequence are loops, and the builder calls itself as deep as the tree is nested. A call that takes
//! memory may answer `Memory`; nothing else fails.
#![tactic(auto)]

mod auto;
mod build;
mod class;
mod edge;
mod edges;
mod extent;
mod least;
mod only;
mod set;

pub use auto::Auto;
pub use class::classes;
pub use edge::{Edge, Label, Symbol};
pub use least::{LeastStep, least_step};
pub use only::{OnlyStep, only_step};
pub use set::StateSet;
