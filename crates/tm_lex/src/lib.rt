//! The tokens of a text: words, lifetimes, numbers and marks, between white space and comments.
//! Which characters are part of a word is what `unicode_ident` says.
#![tactic(auto)]

mod fault;
mod front;
mod gaps;
mod lexing;
mod numbers;
mod opening;
mod piece;
mod token;
mod words;

pub use fault::{LexErr, LexWhy};
pub use lexing::lex;
pub use token::{Token, TokenKind};
