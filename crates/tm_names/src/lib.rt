//! The names of a question file: what each name and lifetime means, which values discriminants have, and
//! where the first fault of these stands.
#![tactic(auto)]

mod adding;
mod checking;
mod counting;
mod definitions;
mod fault;
mod faults;
mod file;
mod forms;
mod indexed;
mod meaning;
mod resolved;
mod resolving;
mod source;
mod value;

pub use checking::check;
pub use fault::NameErr;
pub use resolved::{Life, Open, OpenAsk, Resolved};
