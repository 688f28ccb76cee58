//! Which regions outlive which.
//!
//! `Order::new` closes the bounds of a world once, and `outlives` then answers in constant time. A
//! region outlives another where a chain of bounds, of any length, leads from it to the other or to
//! `'static`.
#![tactic(auto)]

mod order;
mod row;

pub use order::Order;
