//! Each public call of `flute_parts` once. Tests of many inputs are in
//! `trials/parts`.

mod devices;
mod joins;
mod listing;
mod partitions;
mod tallies;

use flute_parts::{
    Address, Bytes, BytesFault, DeviceFault, Fact, FactRef, Info, InfoFault, Key, ObjectKey, Part,
    Sender, SessionKey, SymbolId, laws,
};
use std::fmt::Display;
use std::test::Fail;

fn key() -> Option<Key> {
    let session = SessionKey::new(Sender::new(0), 7)?;
    let object = ObjectKey::file(1)?;
    Some(Key { session, object })
}

fn is_shown<T: Display>(rt: &HostRuntime, shown: &T, text: &str) -> Result<bool, Fail> {
    Ok(format!(in rt.alloc(); "{shown}")?.as_str() == text)
}

#[test]
fn names_tell_their_numbers(rt: HostRuntime) -> Result<(), Fail> {
    let sender = Sender::v4(0x0A00_0001);
    assert!(rt; sender.number() == 0xFFFF_0A00_0001);
    let session = SessionKey::new(sender, 7).ok_or("no such session")?;
    assert!(rt; session.tsi() == 7);
    assert!(rt; session.sender() == sender);
    let object = ObjectKey::fdt(3).ok_or("no such FDT Instance")?;
    assert!(rt; object.instance() == Some(3));
    let object = ObjectKey::file(1).ok_or("no such file")?;
    assert!(rt; object.toi() == 1);
    Ok(())
}

#[test]
fn information_tells_its_numbers(rt: HostRuntime) -> Result<(), Fail> {
    let info = Info::new(5, 4, 2)?;
    assert!(rt; info.length() == 5);
    assert!(rt; info.symbol() == 4);
    assert!(rt; info.block() == 2);
    Ok(())
}

#[test]
fn bytes_are_copied_and_moved(rt: HostRuntime) -> Result<(), Fail> {
    let copied = Bytes::new(rt.alloc(), b"lo")?;
    let moved = Bytes::from_vec(b"lo".to_vec(rt.alloc())?)?;
    assert!(rt; copied == moved);
    assert!(rt; copied.as_slice() == b"lo".as_slice());
    assert!(rt; moved.into_vec().as_slice() == b"lo".as_slice());
    Ok(())
}

#[test]
fn a_fact_stands_at_its_address(rt: HostRuntime) -> Result<(), Fail> {
    let key = &key().ok_or("no such key")?;
    let address = Address {
        key: *key,
        part: Part::Info,
    };
    let fact = Fact::InfoConflict { key: *key };
    assert!(rt; fact.address() == address);
    assert!(rt; fact.as_ref().address() == address);
    assert!(rt; fact.as_ref() == FactRef::InfoConflict { key: *key });
    assert!(rt; fact == Fact::InfoConflict { key: *key });
    Ok(())
}

#[test]
fn faults_have_names(rt: HostRuntime) -> Result<(), Fail> {
    assert!(rt; is_shown(&rt, &InfoFault::BlockTooLong, "BlockTooLong")?);
    assert!(rt; is_shown(&rt, &BytesFault::OutOfMemory, "OutOfMemory")?);
    assert!(rt; is_shown(&rt, &DeviceFault, "the device failed")?);
    Ok(())
}

#[test]
fn laws_can_be_called() {
    laws::lists_are_compared();
    laws::names_are_ordered();
    laws::symbols_are_listed();
}

#[test]
fn names_are_in_order(rt: HostRuntime) {
    let (low, high) = (Sender::v4(0x0A00_0001), Sender::v4(0x0A00_0002));
    assert!(rt; low < high);
    assert!(rt; SessionKey::new(low, 8) < SessionKey::new(high, 7));
    assert!(rt; ObjectKey::fdt(5) < ObjectKey::file(1));
    assert!(rt; Part::Info < Part::Symbol(SymbolId { sbn: 0, esi: 0 }));
}
