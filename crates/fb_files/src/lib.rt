//! The outside: named files and an output, in memory and real. Used above: bytes are held, sent and asked for as
//! the traits `Files` and `Sink` say, and a call fails only where a count of failures rose. It stands on fb_base,
//! which says what a count that rose and a front of some bytes are.
#![tactic(auto)]

mod disk_files;
mod error;
mod faults;
mod files;
mod memory_files;
mod memory_sink;
mod planned_faults;
mod sink;
mod stdout_sink;
mod whole;

pub use disk_files::DiskFiles;
pub use error::{LoadError, WriteError};
pub use files::Files;
pub use memory_files::MemoryFiles;
pub use memory_sink::MemorySink;
pub use planned_faults::PlannedFaults;
pub use sink::Sink;
pub use stdout_sink::StdoutSink;
