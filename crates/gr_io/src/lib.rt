//! Where bytes come from and where they go: sources and sinks that count their faults.
#![tactic(auto)]

mod device;
mod limits;
mod memory;
mod standard;
mod whole;

pub use device::{Failed, Sink, Source};
pub use limits::{MAX_PROGRAM, MAX_REPLAY};
pub use memory::{MemSink, MemSource};
pub use standard::{StdSink, StdSource};
pub use whole::{ReadAllError, WriteFault, read_all, write_all};
