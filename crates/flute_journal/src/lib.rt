//! Journals: the facts of a reception as bytes, each address once and in rising order.
//!
//! A content has one journal ([`write_store`] writes it), and every list of bytes is a journal or
//! has one first fault ([`JournalReader`] returns it). A datagram file is read by a
//! [`DatagramReader`].
//!
//! The journal of a store (from `reception_sample`):
//!
//! ```
//! let mut sink = MemorySink::new(alloc);
//! write_store(store, &mut sink)?;
//! ```
#![tactic(auto)]

mod fault;
mod format;
mod kind;
pub mod laws;
mod readers;
mod writers;

pub use fault::{LoadFault, ReadFault, SaveFault};
pub use format::Version;
pub use kind::{Kind, kind_of};
pub use readers::datagram_reader::{DatagramReader, FILE_HEADER};
pub use readers::each_datagram::{Datagrams, EachFault, for_each_datagram};
pub use readers::entry_fields::Before;
pub use readers::held_entry::{HeldEntry, HeldValue};
pub use readers::input::fill;
pub use readers::journal_reader::{JournalReader, read_into};
pub use readers::reader_state::ReaderState;
pub use readers::store_from_journal::read_store;
pub use writers::datagram_file::{write_datagrams, write_record};
pub use writers::journal_of_store::write_store;
pub use writers::journal_writer::JournalWriter;
