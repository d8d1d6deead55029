//! The journals of two stations are written, merged and read.

use anyhow::Result;
use flute_journal::{read_store, write_store};
use flute_parts::{MemorySink, MemorySource};
use flute_store::Shelf;
use flute_streams::merge_streams;
use std::alloc::Global;

/// How many entries a journal may have here.
const MANY: u64 = 1_000;

/// The journal of what a store holds.
pub fn journal_of(alloc: Global, store: &Shelf) -> Result<MemorySink> {
    let mut sink = MemorySink::new(alloc);
    write_store(store, &mut sink)?;
    Ok(sink)
}

/// The store of what two journals contain together, from the journal of both.
pub fn store_of_both(alloc: Global, first: &[u8], second: &[u8]) -> Result<Shelf> {
    let mut first = MemorySource::new(first);
    let mut second = MemorySource::new(second);
    let mut merged = MemorySink::new(alloc);
    merge_streams(alloc, &mut first, &mut second, &mut merged, MANY)?;
    Ok(read_store(alloc, &mut MemorySource::new(merged.as_slice()), MANY)?)
}
