//! The outside: where bytes come from and where they go, with a count of the faults met on the way.
//!
//! A source tells what it has left and a sink what it holds, where they can; no call changes whether they tell.
//! `SureSource`, `MemorySource` and `MemorySink` work in memory and tell their bytes. `ReadSource` and `WriteSink` are
//! over readers and writers of std, and tell none.
#![tactic(auto)]

mod memory_sink;
mod memory_source;
mod read_source;
mod steps;
mod sure_source;
#[cfg(test)]
mod tests;
mod traits;
mod write_sink;

pub use memory_sink::MemorySink;
pub use memory_source::MemorySource;
pub use read_source::ReadSource;
pub use sure_source::SureSource;
pub use traits::{Got, Put, Sink, Source};
pub use write_sink::WriteSink;
