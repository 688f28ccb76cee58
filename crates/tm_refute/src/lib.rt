//! Refutations: noes that a third party checks by types, words and cells alone.
//!
//! A refutation shows that the answer to a question isn't yes: by a value of the source with which the
//! target doesn't go along, and by pairs of references that fail, each resting on pairs that fail at
//! lesser depths. [`verify`] says whether one holds; it asks what a value is, how references break the
//! local rules, and nothing else. [`refutations_are_true`] is what one shows wherever it holds. [`refute`]
//! makes the one of a question: there is no other by [`questions_have_one_refutation`], and it holds by
//! [`refutations_of_questions_hold`]. [`read_text`] reads one from its text, or tells the first line that is
//! bad; [`texts_are_read_one_way`] says that there is one way to do so. [`write_text`] writes one, so that it
//! is read back.
#![tactic(auto)]

mod depths;
mod fitted;
mod judged;
mod law;
mod refutation;
mod refuting;
mod showing;
mod standing;
mod stop;
mod text;
mod verifying;

pub use law::{
    questions_have_one_refutation, refutations_are_true, refutations_of_questions_hold,
    texts_are_read_one_way,
};
pub use refutation::{Entry, Piece, Proof, Refutation};
pub use refuting::refute;
pub use stop::{RefuteErr, TextErr};
pub use text::{read_text, write_text};
pub use verifying::verify;
