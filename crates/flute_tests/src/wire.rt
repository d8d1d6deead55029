//! Each public call of `flute_wire` once. Worked examples are in `trials/wire`.

use flute_parts::{Info, Key, ObjectKey, Sender, SessionKey};
use flute_wire::*;
use std::test::Fail;
use test_vectors::{INFO_ALONE, INFO_AND_FIRST_SYMBOL, bytes};

/// File 1 of session 7 of the sender 0.
fn file() -> Option<Key> {
    let session = SessionKey::new(Sender::new(0), 7)?;
    let object = ObjectKey::file(1)?;
    Some(Key { session, object })
}

#[test]
fn a_datagram_is_read(rt: HostRuntime) -> Result<(), Fail> {
    let datagram = bytes(rt.alloc(), INFO_AND_FIRST_SYMBOL)?;
    let packet = read(&datagram)?;
    assert!(rt; packet.tsi() == 7);
    assert!(rt; packet.toi() == 1);
    assert!(rt; packet.instance().is_none());
    assert!(rt; packet.key(Sender::new(0)) == file().ok_or("a key")?);
    assert!(rt; packet.info().is_some());
    assert!(rt; packet.symbol().is_some());
    Ok(())
}

#[test]
fn a_datagram_is_written(rt: HostRuntime) -> Result<(), Fail> {
    let outgoing = Outgoing {
        key: file().ok_or("a key")?,
        info: Some(Info::new(5, 4, 2)?),
        symbol: None,
    };
    let datagram = write(rt.alloc(), &outgoing)?;
    assert!(rt; datagram.as_slice() == bytes(rt.alloc(), INFO_ALONE)?.as_slice());
    Ok(())
}

#[test]
fn an_object_is_sent(rt: HostRuntime) -> Result<(), Fail> {
    let key = file().ok_or("a key")?;
    let sent = carousel(rt.alloc(), &key, &Info::new(5, 4, 2)?, b"hello")?;
    assert!(rt; sent.len() == 2);
    assert!(rt; sent.get(1).is_some());
    Ok(())
}

#[test]
fn bytes_are_kept(rt: HostRuntime) -> Result<(), Fail> {
    let copied = Datagram::new(rt.alloc(), b"hello")?;
    let moved = Datagram::from_vec(b"hello".to_vec(rt.alloc())?)?;
    assert!(rt; copied.as_slice() == moved.as_slice());
    Ok(())
}

/// The laws do nothing when they are called, and have no condition.
#[test]
fn laws_have_no_condition() {
    one_reading();
    an_object_is_told_by_its_datagrams();
}
