//! A store of FLUTE receptions: sessions of objects, each with its transmission information and
//! its encoding symbols.
//!
//! What a [`Store`] holds is a list of facts, one at an address, and what is taken, added or
//! absorbed is joined into it: the order in which facts come, and how often they come, makes no
//! difference. Two values at one address are a conflict, and stay one. [`Store::gaps`] returns what
//! is missing of an object, and [`Store::extract`] writes it exactly if nothing is.
//!
//! A station's store takes datagrams (from `reception_sample`):
//!
//! ```
//! let datagram = datagrams.get(place).context("a datagram")?;
//! store.take(alloc, sender, datagram.as_slice())?;
//! ```
//!
//! and an object is written once it is whole:
//!
//! ```
//! let mut sink = MemorySink::new(rt.alloc());
//! store.extract(key, &mut sink)?;
//! ```
//!
//! What is read in the order of a journal, and need not be held, is scanned by an [`ObjectScan`].
#![tactic(auto)]

mod extract;
mod gap;
mod gaps;
mod held_objects;
mod held_scan;
mod held_symbol;
mod keys;
pub mod laws;
mod lookup;
mod object;
mod partition_scan;
mod peekable_symbols;
mod scan;
mod status;
mod store;
mod taken;
mod turn;
mod update;
mod updating;
mod walk;

pub use extract::ExtractFault;
pub use gap::{Gap, Reason};
pub use gaps::{GapFault, Gaps};
pub use held_objects::HasObjects;
pub use keys::Keys;
pub use scan::ObjectScan;
pub use status::Status;
pub use store::{Shelf, Store};
pub use taken::{TakeFault, Taken};
pub use turn::Turn;
pub use updating::Objects;
pub use walk::{HasFacts, Walk};
