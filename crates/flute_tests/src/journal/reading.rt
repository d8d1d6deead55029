//! Journals, read entry by entry.

use super::*;
use flute_parts::{Fact, MemorySource};
use test_vectors::{bytes, journals};

/// The second entry goes where the memory of the first was.
#[test]
fn entries_are_read(rt: HostRuntime) -> Result<(), Fail> {
    let journal = bytes(rt.alloc(), journals::WHOLE)?;
    let mut source = MemorySource::new(&journal);
    let mut reader = JournalReader::new(&mut source, 3);
    let first = reader.next(rt.alloc())?.ok_or("an entry")?;
    let spare = first.into_vec(rt.alloc());
    assert!(rt; reader.next_with(rt.alloc(), spare)?.is_some());
    Ok(())
}

#[test]
fn a_fact_is_held(rt: HostRuntime) -> Result<(), Fail> {
    let key = file().ok_or("a key")?;
    let held = HeldEntry::of(Fact::InfoConflict { key });
    assert!(rt; held.address().is_some() && held.fact(&[]).is_some());
    assert!(rt; held.spelled(&[]).is_empty());
    Ok(())
}

#[test]
fn kinds_are_told_by_first_bytes(rt: HostRuntime) {
    assert!(rt; matches!(kind_of(b"FLDG"), Some(Kind::Datagrams)));
}
