//! What writes journals and datagram files.

pub(crate) mod datagram_file;
pub(crate) mod journal_of_store;
pub(crate) mod journal_writer;
