//! Datagram files, read and written.
ghost use Rattle.std.specs.Prelude.{◌≡◌, ℕ, IfOk, IfErr, IfSome};
ghost use Rattle.flute_journal.specs.Records.{IsFileWithin};
ghost use Rattle.flute_journal.specs.FileFraming.{file_framing};
ghost use Rattle.flute_journal.specs.Framing.{HasFault};

use super::*;
use flute_parts::{Info, MemorySink, MemorySource, Source};
use flute_wire::{Datagram, carousel};
use std::alloc::Global;
use test_vectors::{INFO_AND_FIRST_SYMBOL, INFO_AND_LAST_SYMBOL, bytes, journals};

/// The datagrams of the file that the source holds.
fn datagrams_of<R: Source>(
    alloc: Global,
    source: &mut R,
    max_records: u64,
) -> Result<Vec<Datagram>, ReadFault>
    ensures read { IfOk result (λ v. IfSome (R.unread source.old)
        (λ bs. IsFileWithin max_records bs v.items)) }
    ensures fault { IfErr result (HasFault file_framing max_records (R.unread source.old)) }
{
    let mut reader = DatagramReader::new(source, max_records);
    let mut datagrams = Vec::new(alloc);
    while let Some(datagram) = reader.next(alloc)? {
        if datagrams.push(datagram).is_err() {
            return Err(ReadFault::OutOfMemory);
        }
    }
    Ok(datagrams)
}

#[test]
fn a_datagram_file_is_read(rt: HostRuntime) -> Result<(), Fail> {
    let file = bytes(rt.alloc(), journals::DATAGRAMS)?;
    let datagrams = datagrams_of(rt.alloc(), &mut MemorySource::new(&file), 2)?;
    assert!(rt; datagrams.len() == 2);
    let first = bytes(rt.alloc(), INFO_AND_FIRST_SYMBOL)?;
    assert!(rt; datagrams[0].as_slice() == first.as_slice());
    let last = bytes(rt.alloc(), INFO_AND_LAST_SYMBOL)?;
    assert!(rt; datagrams[1].as_slice() == last.as_slice());
    Ok(())
}

#[test]
fn a_datagram_file_is_written(rt: HostRuntime) -> Result<(), Fail> {
    let key = super::file().ok_or("a key")?;
    let datagrams = carousel(rt.alloc(), &key, &Info::new(5, 4, 2)?, b"hello")?;
    let mut sink = MemorySink::new(rt.alloc());
    assert!(rt; write_datagrams(&datagrams, &mut sink)? == 2);
    let wanted = bytes(rt.alloc(), journals::DATAGRAMS)?;
    assert!(rt; sink.as_slice() == wanted.as_slice());
    Ok(())
}
