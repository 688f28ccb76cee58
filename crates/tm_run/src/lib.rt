//! The whole run: from the words and bytes of an input to a report and a status.
#![tactic(auto)]

mod court;
mod examining;
mod inputs;
mod kinds;
mod matched;
mod reported;
mod running;
mod status;
mod stop;
mod words;

pub use running::run;
pub use status::Status;
