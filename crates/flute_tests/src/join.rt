//! Each public call of `flute_join` once, and each generic item at a concrete type.
use flute_join::{Cell, Join, JoinInto, JoinMap, JoinRefusal, laws};
use std::alloc::Global;
use std::test::Fail;

type Small = JoinMap<u16, Cell<u8>, 2>;

#[test]
fn two_values_are_a_conflict(rt: HostRuntime) {
    let mut cell = Cell::Absent;
    cell.put(5);
    assert!(rt; cell.one().is_some());
    cell.put(8);
    assert!(rt; cell.is_conflict());
}

fn joined<T: Join>(alloc: Global, first: T, second: &T) -> Result<T, JoinRefusal> {
    let mut value = first;
    value.join_from(alloc, second)?;
    value.copy(alloc)
}

#[test]
fn cells_are_joined(rt: HostRuntime) -> Result<(), Fail> {
    assert!(rt; joined(rt.alloc(), Cell::One(5), &Cell::One(8))?.is_conflict());
    Ok(())
}

#[test]
fn a_map_takes_a_new_key(rt: HostRuntime) -> Result<(), Fail> {
    let mut map: Small = JoinMap::new(rt.alloc());
    map.add_new(4, Cell::One(1))?;
    map.join_at(rt.alloc(), 5, &Cell::One(2))?;
    assert!(rt; map.contains(&4));
    assert!(rt; map.get(&5).is_some());
    assert!(rt; map.get_mut(&5).is_some());
    assert!(rt; map.iter().next().is_some());
    assert!(rt; map.len() == 2);
    Ok(())
}

/// One value that is said of a key.
#[derive(Drop)]
struct Said {
    value: u8,
}

impl JoinInto<Cell<u8>> for Said {
    ghost use Rattle.flute_join.specs.declared.cell.Cell.TheVariants.{One};

    ghost value = { λ s. One s.value };

    ghost fits = { λ _. Unit {0} };

    fn join_into(&self, held: &mut Cell<u8>) {
        held.put(self.value);
    }

    fn into_value(self, _alloc: Global) -> Result<Cell<u8>, JoinRefusal> {
        Ok(Cell::One(self.value))
    }
}

/// Into a value that is held, as a new one, and where there is no room for that.
#[test]
fn what_is_said_is_joined(rt: HostRuntime) -> Result<(), Fail> {
    let alloc = rt.alloc();
    let mut held: JoinMap<u16, Cell<u8>, 1> = JoinMap::new(alloc);
    held.add_new(4, Cell::One(1))?;
    held.join_with(alloc, 4, Said { value: 2 })?;
    assert!(rt; held.get(&4) == Some(&Cell::Conflict));
    let mut new: Small = JoinMap::new(alloc);
    new.join_with(alloc, 4, Said { value: 2 })?;
    assert!(rt; new.get(&4) == Some(&Cell::One(2)));
    let mut full: JoinMap<u16, Cell<u8>, 1> = JoinMap::new(alloc);
    full.add_new(4, Cell::One(1))?;
    assert!(rt; full.join_with(alloc, 5, Said { value: 2 }) == Err(JoinRefusal::Full));
    Ok(())
}

/// Of one map, and of maps of maps.
#[test]
fn maps_are_joined(rt: HostRuntime) -> Result<(), Fail> {
    let alloc = rt.alloc();
    let empty: Small = JoinMap::new(alloc);
    let mut map: JoinMap<u16, Small, 3> = JoinMap::new(alloc);
    map.join_at(alloc, 4, &joined(alloc, JoinMap::new(alloc), &empty)?)?;
    assert!(rt; joined(alloc, JoinMap::new(alloc), &map)?.len() == 1);
    Ok(())
}

#[test]
fn refusals_are_told(rt: HostRuntime) -> Result<(), Fail> {
    let text = format!(in rt.alloc(); "{} {:?}", JoinRefusal::Full, JoinRefusal::OutOfMemory)?;
    assert!(rt; text.as_str() == "full OutOfMemory");
    Ok(())
}

// The bounds of each law are met by the types of this crate.
#[test]
fn the_laws_are_of_these_types() {
    laws::joining_is_a_join::<Small>();
    laws::joining_is_a_join::<Cell<u8>>();
    laws::cells_and_maps_are_joined::<u8, u16, Small>();
    laws::cells_and_maps_are_joined::<u8, u16, Cell<u8>>();
}
