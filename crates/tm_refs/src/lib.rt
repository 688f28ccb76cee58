//! Which references may be taken as which, at every depth of what they point to.
//!
//! `local` asks two references what they show by themselves: five rules, in order. `Compat::solve` asks
//! all pairs of a world's references together. A pair begins in the table where it keeps these rules and
//! both pointees are judged. Round by round pairs are looked at: do their pointees' values go together,
//! with the references in them as the table stood when the round began? Those that don't are lost. So
//! after n rounds the table is what is compatible to n levels of pointees, and the round in which a pair
//! is lost is its depth. After the first round only those are looked at again that depend on a pair that
//! was lost in the round before. Where a round loses nothing, the table is that of every depth.
//!
//! The automata of each pointee are built once, by `automaton_of`, and a look goes through them once or twice.
#![tactic(auto)]

mod automaton;
mod casts;
mod compat;
mod first;
mod laid_out;
mod leaves;
mod look;
mod pair;
mod pointees;
mod rounds;
mod rules;
mod standing;
mod table;

pub use automaton::automaton_of;
pub use compat::Compat;
pub use leaves::{holds_reference, leaves_of};
pub use rules::local;
