//! Whether bytes are a value of a type, and bytes as they are written in hexadecimal digits.
#![tactic(auto)]

mod hexadecimal;
mod matching;
mod refusal;

pub use hexadecimal::{HexErr, read_hex};
pub use matching::{Fits, against};
