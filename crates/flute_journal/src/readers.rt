//! The readers of journals and datagram files.

pub(crate) mod datagram_reader;
pub(crate) mod each_datagram;
pub(crate) mod entry_fields;
pub(crate) mod held_entry;
pub(crate) mod input;
pub(crate) mod journal_reader;
pub(crate) mod lent;
pub(crate) mod reader_state;
pub(crate) mod store_from_journal;
