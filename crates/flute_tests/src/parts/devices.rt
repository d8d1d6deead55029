//! Sinks and sources over memory, over writers and readers, and those that fail.

use flute_memory::{ShortSink, ShortSource};
use flute_parts::{MemorySink, MemorySource, Sink, Source, StdSink, StdSource};
use std::test::Fail;

#[test]
fn sinks_keep_what_they_take(rt: HostRuntime) -> Result<(), Fail> {
    let mut sink = MemorySink::new(rt.alloc());
    sink.write_all(b"hello")?;
    assert!(rt; sink.as_slice() == b"hello".as_slice());
    let mut sink = ShortSink::new(rt.alloc(), 3);
    sink.write_all(b"hel")?;
    assert!(rt; sink.write_all(b"lo").is_err());
    assert!(rt; sink.as_slice() == b"hel".as_slice());
    Ok(())
}

#[test]
fn a_writer_over_memory_gets_the_bytes(rt: HostRuntime) -> Result<(), Fail> {
    let mut bytes = Vec::new(rt.alloc());
    let mut sink = StdSink::new(&mut bytes);
    sink.write_all(b"hello")?;
    sink.flush()?;
    assert!(rt; bytes.as_slice() == b"hello".as_slice());
    Ok(())
}

#[test]
fn a_source_lends_what_lies_in_memory(rt: HostRuntime) {
    let mut source = MemorySource::new(b"hello");
    source.consume(2);
    assert!(rt; source.buffer() == b"llo".as_slice());
}

#[test]
fn sources_give_their_bytes(rt: HostRuntime) -> Result<(), Fail> {
    let mut buffer = [0; 4];
    assert!(rt; StdSource::new(b"hello".as_slice()).read(&mut buffer)? == 4);
    assert!(rt; MemorySource::new(b"hello").read(&mut buffer)? == 4);
    assert!(rt; ShortSource::new(b"hello", 2, 2).read(&mut buffer)? == 2);
    Ok(())
}
