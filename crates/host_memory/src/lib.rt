//! A host in memory, whose contracts speak of its files, and whose calls can be made to fail.
#![tactic(auto)]

mod memory_host;

pub use memory_host::MemoryHost;
