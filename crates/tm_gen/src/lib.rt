//! Question files that a number determines, as bytes: definitions and questions for trials.
#![tactic(auto)]

mod definitions;
mod draws;
mod fields;
mod generating;
mod questions;
#[cfg(test)]
mod tests;

pub use generating::generate;
