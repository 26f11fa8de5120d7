//! What the program meets outside: a source of bytes, a sink for them, and their faults.
//!
//! A source or a sink may tell its bytes, as those in memory do, and it counts its faults. `read_all` and `write_all`
//! promise what they do to the told bytes, that they answer a fault only where the count of faults rose, and that none
//! comes from a steady source or a sink with room. `StdSource` tells what its reader tells, and each write of `StdSink`
//! that succeeds is one of its writer. Standard input and output tell no bytes. Of the crates below only the fault
//! `Memory` of `cpog_base` is used.
#![tactic(auto)]

mod fault_plan;
mod laws;
mod memory_sink;
mod memory_source;
mod plain_source;
mod reading;
mod sink;
mod source;
mod std_ends;
mod writing;

pub use laws::memory_is_quiet;
pub use memory_sink::MemSink;
pub use memory_source::MemSource;
pub use plain_source::PlainSource;
pub use reading::{ReadAllFault, read_all};
pub use sink::Sink;
pub use source::{Failed, Source};
pub use std_ends::{StdSink, StdSource};
pub use writing::{WriteFault, write_all};

#[cfg(test)]
mod tests;
