//! Replicas of a store and the steps that they take, and commands over a store.
//!
//! [`Replicas`] take datagrams and facts, are merged, written and read; whatever the order, those
//! that were given the same write equal journals ([`journal_after`]). [`join_inputs`] joins inputs
//! in memory into a store, [`load`] and [`save_to`] read and write its journal, and [`gaps_to`]
//! prints what is missing. The program makes none of these calls.
//!
//! The journal of one of two replicas (from `reception_sample`):
//!
//! ```
//! let mut sink = MemorySink::new(alloc);
//! journal_after::<MAX_SESSIONS, MAX_OBJECTS, MAX_SYMBOLS, _>(
//!     alloc, 2, steps, replica, &mut sink,
//! )?;
//! ```
#![tactic(auto)]

mod blob;
mod gaps;
pub mod laws;
mod loaded_shelf;
mod memory_aside;
mod memory_inputs;
mod no_asides;
mod outputs;
mod replicas;
mod runs;
mod saved_shelf;
mod steps;

pub use blob::{Blob, BlobFault};
pub use gaps::gaps_to;
pub use loaded_shelf::load;
pub use memory_aside::MemoryAside;
pub use memory_inputs::join_inputs;
pub use no_asides::NoAsides;
pub use outputs::{OutputFault, journal_after, object_after};
pub use replicas::Replicas;
pub use runs::{RunFault, run};
pub use saved_shelf::save_to;
pub use steps::{Step, StepFault};
