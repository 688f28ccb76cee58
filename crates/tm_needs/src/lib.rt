//! What has to be assumed so that a value of one type may be taken as one of another.
//!
//! [`least`] asks the questions from a source to a target under sets of assumptions, the smaller ones
//! first, and answers the least sets under which the answer is yes.
#![tactic(auto)]

mod needs;
mod sets;

pub use needs::{least, least_sets_are_the_only_ones};
