//! Merges of streams into one journal.

pub(crate) mod advance;
pub(crate) mod all_streams;
pub(crate) mod compare;
pub(crate) mod leading;
pub(crate) mod lowest;
pub(crate) mod one_stream;
pub(crate) mod ranks;
pub(crate) mod same_bytes;
pub(crate) mod sides;
pub(crate) mod stopped;
pub(crate) mod streams_fault;
pub(crate) mod two_streams;
