//! Each public call of `flute_store` once. Worked examples are in `trials/store`.

use flute_parts::{
    Address, Bytes, Fact, Info, Key, MemorySink, ObjectKey, Part, Sender, SessionKey, SymbolId,
};
use flute_store::{Shelf, laws};
use flute_wire::read;
use std::alloc::Global;
use std::test::Fail;
use test_vectors::{INFO_AND_FIRST_SYMBOL, bytes};

/// File 1 of session 7 of the sender 0.
fn file() -> Option<Key> {
    let session = SessionKey::new(Sender::new(0), 7)?;
    let object = ObjectKey::file(1)?;
    Some(Key { session, object })
}

/// A new store that took the information and the first symbol of the file.
fn taken(alloc: Global) -> Result<Shelf, Fail> {
    let mut store = Shelf::new(alloc);
    store.take(alloc, Sender::new(0), &bytes(alloc, INFO_AND_FIRST_SYMBOL)?)?;
    Ok(store)
}

/// The information of a file of four bytes, one symbol.
fn information(key: &Key) -> Option<Fact> {
    let info = Info::new(4, 4, 1).ok()?;
    Some(Fact::Info { key: *key, info })
}

/// The symbol of that file.
fn symbol(alloc: Global, key: &Key) -> Result<Fact, Fail> {
    let id = SymbolId { sbn: 0, esi: 0 };
    let bytes = Bytes::new(alloc, b"hell")?;
    Ok(Fact::Symbol {
        key: *key,
        id,
        bytes,
    })
}

#[test]
fn a_file_is_taken(rt: HostRuntime) -> Result<(), Fail> {
    let key = &file().ok_or("a key")?;
    let store = taken(rt.alloc())?;
    assert!(rt; store.walk().next().is_some());
    assert!(rt; store.objects().next() == Some(*key));
    let part = Part::Info;
    assert!(rt; store.contains(&Address { key: *key, part }));
    Ok(())
}

#[test]
fn a_packet_is_taken(rt: HostRuntime) -> Result<(), Fail> {
    let datagram = bytes(rt.alloc(), INFO_AND_FIRST_SYMBOL)?;
    let packet = read(&datagram)?;
    let mut store = Shelf::new(rt.alloc());
    let taken = store.take_packet(rt.alloc(), Sender::new(0), &packet)?;
    assert!(rt; taken.facts == 2);
    assert!(rt; Some(taken.key) == file());
    Ok(())
}

#[test]
fn stores_are_joined(rt: HostRuntime) -> Result<(), Fail> {
    let mut store = Shelf::new(rt.alloc());
    store.absorb(rt.alloc(), &taken(rt.alloc())?)?;
    assert!(rt; store.walk().next().is_some());
    Ok(())
}

/// A file of one symbol is added as two facts, and written.
#[test]
fn facts_are_added_and_put(rt: HostRuntime) -> Result<(), Fail> {
    let key = &file().ok_or("a key")?;
    let mut store = Shelf::new(rt.alloc());
    store.add(rt.alloc(), &information(key).ok_or("information")?)?;
    store.add(rt.alloc(), &symbol(rt.alloc(), key)?)?;
    let mut sink = MemorySink::new(rt.alloc());
    assert!(rt; store.extract(key, &mut sink)? == 4);
    assert!(rt; sink.as_slice() == b"hell".as_slice());
    Ok(())
}

#[test]
fn an_object_with_a_gap(rt: HostRuntime) -> Result<(), Fail> {
    let key = &file().ok_or("a key")?;
    let store = taken(rt.alloc())?;
    assert!(rt; store.status(key).is_some());
    assert!(rt; store.held(key) == Some(1));
    let mut gaps = store.gaps(key)?;
    assert!(rt; gaps.next().is_some());
    assert!(rt; gaps.ticks() <= 4);
    Ok(())
}

/// The laws do nothing when they are called, and have no condition.
#[test]
fn laws_have_no_condition() {
    laws::what_is_held_is_joined();
    laws::facts_give_the_objects();
    laws::gaps_are_maximal_runs();
}
