//! A tally with a limit of one symbol.
use super::key;
use flute_parts::{Address, Part, SymbolId, Tally};
use std::test::Fail;

// The address of this symbol.
fn address(esi: u16) -> Option<Address> {
    let part = Part::Symbol(SymbolId { sbn: 0, esi });
    Some(Address { key: key()?, part })
}

#[test]
fn one_symbol_is_counted(rt: HostRuntime) -> Result<(), Fail> {
    let mut tally: Tally<1, 1, 1> = Tally::new();
    assert!(rt; tally.count(&address(0).ok_or("no such address")?));
    assert!(rt; !tally.count(&address(1).ok_or("no such address")?));
    Ok(())
}
