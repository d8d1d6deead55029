//! Names as keys of maps, and values in cells.
use flute_join::{Cell, JoinMap, Value};
use flute_parts::{Bytes, Info, SymbolId};
use std::test::Fail;

#[test]
fn values_are_copied(rt: HostRuntime) -> Result<(), Fail> {
    let info = Info::new(5, 4, 2)?;
    assert!(rt; info.copy(rt.alloc())? == info);
    let bytes = Bytes::new(rt.alloc(), b"o")?;
    assert!(rt; bytes.copy(rt.alloc())? == bytes);
    Ok(())
}

#[test]
fn symbols_are_joined(rt: HostRuntime) -> Result<(), Fail> {
    let id = SymbolId { sbn: 0, esi: 1 };
    let mut symbols: JoinMap<SymbolId, Cell<Bytes>, 1> = JoinMap::new(rt.alloc());
    symbols.join_at(rt.alloc(), id, &Cell::One(Bytes::new(rt.alloc(), b"o")?))?;
    assert!(rt; symbols.contains(&id));
    Ok(())
}
