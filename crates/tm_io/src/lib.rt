//! Where bytes come from and where they go: sources and sinks that count their faults, over memory and
//! over std's readers and writers, and how all bytes are read and written.
#![tactic(auto)]

mod calls;
mod failed;
mod flaky_sink;
mod flaky_source;
mod mem_sink;
mod mem_source;
mod reading;
mod sink;
mod source;
mod std_sink;
mod std_source;
mod writing;

pub use failed::Failed;
pub use flaky_sink::FlakySink;
pub use flaky_source::FlakySource;
pub use mem_sink::MemSink;
pub use mem_source::MemSource;
pub use reading::{ReadErr, read_all};
pub use sink::Sink;
pub use source::Source;
pub use std_sink::StdSink;
pub use std_source::StdSource;
pub use writing::{SinkErr, write_all};
