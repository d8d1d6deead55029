//! Sessions of objects of symbols, joined.
use crate::{Object, Objects, Sessions, absorb};
use flute_join::{Cell, JoinMap, JoinRefusal};
use std::alloc::Global;
use std::test::Fail;

// Session 7 with object 1, which has one symbol and no information.
fn one_symbol(alloc: Global, symbol: u16, value: u8) -> Result<Sessions<2, 2, 2>, JoinRefusal> {
    let mut symbols = JoinMap::new(alloc);
    symbols.join_at(alloc, symbol, &Cell::One(value))?;
    let mut objects: Objects<2, 2> = JoinMap::new(alloc);
    objects.join_at(
        alloc,
        1,
        &Object {
            info: Cell::Absent,
            symbols,
        },
    )?;
    let mut sessions = JoinMap::new(alloc);
    sessions.join_at(alloc, 7, &objects)?;
    Ok(sessions)
}

fn holds(sessions: &Sessions<2, 2, 2>, symbol: u16, value: u8) -> bool {
    let Some(object) = sessions.get(&7).and_then(|objects| objects.get(&1)) else {
        return false;
    };
    object
        .symbols
        .get(&symbol)
        .and_then(|cell| cell.one())
        .is_some_and(|held| *held == value)
}

#[test]
fn sessions_are_joined_three_levels_deep(rt: HostRuntime) -> Result<(), Fail> {
    let alloc = rt.alloc();
    let mut sessions = JoinMap::new(alloc);
    absorb(&mut sessions, alloc, &one_symbol(alloc, 0, 5)?)?;
    absorb(&mut sessions, alloc, &one_symbol(alloc, 3, 6)?)?;
    absorb(&mut sessions, alloc, &one_symbol(alloc, 0, 5)?)?;
    assert!(rt; sessions.len() == 1);
    assert!(rt; holds(&sessions, 0, 5) && holds(&sessions, 3, 6));
    assert!(rt; absorb(&mut sessions, alloc, &one_symbol(alloc, 1, 9)?) == Err(JoinRefusal::Full));
    assert!(rt; holds(&sessions, 0, 5) && holds(&sessions, 3, 6) && !holds(&sessions, 1, 9));
    absorb(&mut sessions, alloc, &one_symbol(alloc, 0, 8)?)?;
    assert!(rt; !holds(&sessions, 0, 5) && !holds(&sessions, 0, 8) && holds(&sessions, 3, 6));
    Ok(())
}
