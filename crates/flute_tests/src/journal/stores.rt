//! A store, written as a journal and read.

use super::*;
use flute_parts::{MemorySink, MemorySource};
use test_vectors::{bytes, journals, written};

#[test]
fn a_store_is_read_and_written(rt: HostRuntime) -> Result<(), Fail> {
    let journal = bytes(rt.alloc(), journals::WHOLE)?;
    let store: Small = read_store(rt.alloc(), &mut MemorySource::new(&journal), 3)?;
    let mut sink = MemorySink::new(rt.alloc());
    assert!(rt; write_store(&store, &mut sink)? == 3);
    assert!(rt; sink.as_slice() == bytes(rt.alloc(), written::WHOLE)?.as_slice());
    Ok(())
}
