//! Each call once, of the file `hello` of two symbols.
use crate::{answer, completes, datagrams_of, differences, file_of, is_whole, journal_of_both};
use flute_journal::EachFault;
use flute_parts::{Info, Key, MemorySource, ObjectKey, Sender, SessionKey};
use flute_store::{ExtractFault, Shelf};
use flute_streams::Side;
use std::alloc::Global;
use std::test::Fail;
use test_vectors::{INFO_AND_FIRST_SYMBOL, INFO_AND_LAST_SYMBOL, bytes, journals, written};

/// File 1 of session 7 of the sender 0.
fn file() -> Option<Key> {
    let session = SessionKey::new(Sender::new(0), 7)?;
    let object = ObjectKey::file(1)?;
    Some(Key { session, object })
}

/// A store of one datagram.
fn store_of(alloc: Global, datagram: &str) -> Result<Shelf, Fail> {
    let mut store = Shelf::new(alloc);
    store.take(alloc, Sender::new(0), &bytes(alloc, datagram)?)?;
    Ok(store)
}

/// The second of two datagrams makes it whole, and one of another sender does not.
#[test]
fn a_file_is_watched(rt: HostRuntime) -> Result<(), Fail> {
    let alloc = rt.alloc();
    let key = file().ok_or("a key")?;
    let info = Info::new(5, 4, 2)?;
    let mut store = Shelf::new(alloc);
    let first = bytes(alloc, INFO_AND_FIRST_SYMBOL)?;
    let last = bytes(alloc, INFO_AND_LAST_SYMBOL)?;
    assert!(rt; !completes(alloc, &mut store, Sender::new(0), &first, &key, &info)?);
    assert!(rt; !completes(alloc, &mut store, Sender::new(9), &last, &key, &info)?);
    assert!(rt; !is_whole(&store, &key, &info));
    assert!(rt; completes(alloc, &mut store, Sender::new(0), &last, &key, &info)?);
    assert!(rt; is_whole(&store, &key, &info));
    assert!(rt; file_of(alloc, &store, &key)?.as_slice() == b"hello".as_slice());
    Ok(())
}

#[test]
fn a_part_of_a_file_is_none(rt: HostRuntime) -> Result<(), Fail> {
    let key = file().ok_or("a key")?;
    let store = store_of(rt.alloc(), INFO_AND_FIRST_SYMBOL)?;
    let file = file_of(rt.alloc(), &store, &key);
    assert!(rt; matches!(file, Err(ExtractFault::NotWhole { .. })));
    Ok(())
}

/// Each of two stores has a symbol that the other lacks, and both have the information.
#[test]
fn stores_differ(rt: HostRuntime) -> Result<(), Fail> {
    let first = store_of(rt.alloc(), INFO_AND_FIRST_SYMBOL)?;
    let second = store_of(rt.alloc(), INFO_AND_LAST_SYMBOL)?;
    let rows = differences(rt.alloc(), &first, &second)?;
    assert!(rt; rows.len() == 1);
    assert!(rt; matches!(rows[0].information, Some(Side::Same)));
    assert!(rt; rows[0].symbols.same == 0 && rows[0].symbols.differ == 0);
    assert!(rt; rows[0].symbols.first == 1 && rows[0].symbols.second == 1);
    Ok(())
}

/// A file of two datagrams.
#[test]
fn datagrams_are_kept(rt: HostRuntime) -> Result<(), Fail> {
    let file = bytes(rt.alloc(), journals::DATAGRAMS)?;
    let kept = match datagrams_of(rt.alloc(), &mut MemorySource::new(&file), 2) {
        Ok(kept) => kept,
        Err(EachFault::Read(fault)) => return Err(fault.into()),
        Err(EachFault::Datagram(fault)) => return Err(fault.into()),
    };
    assert!(rt; kept.len() == 2);
    let last = bytes(rt.alloc(), INFO_AND_LAST_SYMBOL)?;
    assert!(rt; kept[1].as_slice() == last.as_slice());
    assert!(rt; datagrams_of(rt.alloc(), &mut MemorySource::new(&file), 1).is_err());
    Ok(())
}

#[test]
fn receptions_are_joined(rt: HostRuntime) -> Result<(), Fail> {
    let whole = bytes(rt.alloc(), journals::WHOLE)?;
    let others = bytes(rt.alloc(), journals::OTHERS)?;
    let joined = bytes(rt.alloc(), written::JOINED)?;
    let one = journal_of_both(rt.alloc(), &whole, &others)?;
    let other = journal_of_both(rt.alloc(), &others, &whole)?;
    assert!(rt; one.as_slice() == joined.as_slice());
    assert!(rt; other.as_slice() == joined.as_slice());
    Ok(())
}

/// Who has no information of the file lacks all of it; who has it whole, nothing.
#[test]
fn what_another_lacks_is_answered(rt: HostRuntime) -> Result<(), Fail> {
    let journal = bytes(rt.alloc(), journals::WHOLE)?;
    let all = answer(rt.alloc(), &journal, b"session 7 object 1 no information\n")?;
    assert!(rt; all.as_slice() == bytes(rt.alloc(), written::WHOLE)?.as_slice());
    let nothing = answer(rt.alloc(), &journal, b"session 7 object 1 whole 5\n")?;
    assert!(rt; nothing.as_slice() == bytes(rt.alloc(), written::NOTHING)?.as_slice());
    Ok(())
}
