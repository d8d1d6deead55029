//! A world in memory for tests of [`flutejoin_commands::run`], whose files contracts see.
//!
//! A [`MemoryWorld`] is made of [`NamedBytes`], and keeps what becomes of each output. Its standard
//! output is a [`MemoryReport`], its inputs are [`OwnedSource`]s. Each device fails for good after
//! a given number of calls.
#![tactic(auto)]

mod changes;
mod memory_asides;
mod memory_report;
mod memory_world;
mod named_bytes;
mod owned_source;
mod told;

pub use memory_asides::MemoryAsides;
pub use memory_report::MemoryReport;
pub use memory_world::MemoryWorld;
pub use named_bytes::NamedBytes;
pub use owned_source::OwnedSource;
