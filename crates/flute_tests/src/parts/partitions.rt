//! A partition, and a comparison of one with its listing.
use super::listing::listed;
use flute_parts::{Info, Partition, SymbolId};
use std::test::Fail;

#[test]
fn blocks_of_four_three_and_three(rt: HostRuntime) -> Result<(), Fail> {
    let partition = Partition::of(&Info::new(10, 1, 4)?);
    assert_eq!(rt; (partition.symbols(), partition.blocks()), (10, 3));
    let id = SymbolId { sbn: 1, esi: 0 };
    assert!(rt; partition.block_len(0) == 4);
    assert!(rt; partition.place(id) == Some(4));
    assert!(rt; partition.id_at(4) == Some(id));
    assert!(rt; partition.fits(id, 1));
    Ok(())
}

#[test]
fn a_partition_agrees_with_its_listing(rt: HostRuntime) -> Result<(), Fail> {
    let info = Info::new(99, 10, 3)?;
    let partition = Partition::of(&info);
    let symbols = listed(rt.alloc(), &info)?;
    assert!(rt; partition.symbols() == symbols.len() as u64);
    for (place, &id) in symbols.iter().enumerate() {
        assert!(rt; partition.id_at(place as u64) == Some(id));
        assert!(rt; partition.place(id) == Some(place as u64));
    }
    Ok(())
}
