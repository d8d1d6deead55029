//! Streams of each kind, merged.

use super::*;
use flute_parts::{DeviceFault, Fact, MemorySink, MemorySource, SymbolId};
use test_vectors::journals::{OTHERS, WHOLE};
use test_vectors::{bytes, written};

#[test]
fn journals_are_merged(rt: HostRuntime) -> Result<(), Fail> {
    let whole = bytes(rt.alloc(), WHOLE)?;
    let mut first = MemorySource::new(&whole);
    let mut second = MemorySource::new(&whole);
    let mut sink = MemorySink::new(rt.alloc());
    let entries = merge_streams(rt.alloc(), &mut first, &mut second, &mut sink, 3)?;
    assert!(rt; entries == 3);
    Ok(())
}

/// Two of version 1, and between them one of version 2.
#[test]
fn three_journals_are_merged(rt: HostRuntime) -> Result<(), Fail> {
    let others = bytes(rt.alloc(), OTHERS)?;
    let whole = bytes(rt.alloc(), written::WHOLE)?;
    let mut journals = [
        OwnedJournalStream::new(MemorySource::new(&others), MANY),
        OwnedJournalStream::new(MemorySource::new(&whole), MANY),
        OwnedJournalStream::new(MemorySource::new(&others), MANY),
    ];
    let mut sink = MemorySink::new(rt.alloc());
    let mut all = &mut journals[..];
    merge_all::<4, 4, 4, _, _>(rt.alloc(), &mut all, &mut sink)?;
    assert!(rt; sink.as_slice() == bytes(rt.alloc(), written::JOINED)?.as_slice());
    Ok(())
}

#[test]
fn a_journal_and_a_store_are_merged(rt: HostRuntime) -> Result<(), Fail> {
    let whole = bytes(rt.alloc(), WHOLE)?;
    let store: Small = Store::new(rt.alloc());
    let mut journal = OwnedJournalStream::new(MemorySource::new(&whole), MANY);
    let mut walk = WalkStream::new(store.walk());
    let mut sink = MemorySink::new(rt.alloc());
    let joined = merge_two::<1, 1, 2, _, _, _>(rt.alloc(), &mut journal, &mut walk, &mut sink)?;
    assert!(rt; joined.entries == 3);
    Ok(())
}

/// One whole, and one of which a file of a session is taken.
#[test]
fn whole_and_chosen_journals_are_merged(rt: HostRuntime) -> Result<(), Fail> {
    let whole = bytes(rt.alloc(), WHOLE)?;
    let mut sessions = Sessions::all();
    assert!(rt; sessions.add(7));
    assert!(rt; sessions.takes(7));
    assert!(rt; !sessions.is_all());
    let mut all = OwnedJournalStream::new(MemorySource::new(&whole), MANY);
    let mut scope = Scope::all();
    assert!(rt; scope.is_all());
    scope.sessions = sessions;
    scope.files = true;
    let key = file().ok_or("a key")?;
    assert!(rt; scope.takes(&key) && !scope.is_all());
    let journal = OwnedJournalStream::new(MemorySource::new(&whole), MANY);
    let mut chosen = Chosen::new(journal, scope);
    assert!(rt; !chosen.choice.passes_over(&chosen.stream));
    let mut sink = MemorySink::new(rt.alloc());
    let joined = merge_two::<4, 4, 4, _, _, _>(rt.alloc(), &mut all, &mut chosen, &mut sink)?;
    assert!(rt; joined.entries == 3);
    Ok(())
}

/// One of which a symbol is left out.
#[test]
fn a_journal_is_written_without_a_symbol(rt: HostRuntime) -> Result<(), Fail> {
    let whole = bytes(rt.alloc(), WHOLE)?;
    let mut selection = Selection::all();
    assert!(rt; selection.is_all());
    selection.symbol = Some(SymbolId { sbn: 0, esi: 1 });
    let key = file().ok_or("a key")?;
    assert!(rt; !selection.selects(&Fact::InfoConflict { key }.as_ref()));
    let journal = OwnedJournalStream::new(MemorySource::new(&whole), MANY);
    let mut rest = Chosen::new(
        journal,
        AllBut {
            selection,
            listed: None,
        },
    );
    let mut sink = MemorySink::new(rt.alloc());
    assert!(rt; write_stream(rt.alloc(), &mut rest, &mut sink)? == 2);
    assert!(rt; rest.others == 1);
    Ok(())
}

/// What is left of one, alone.
#[test]
fn facts_that_are_left_are_merged(rt: HostRuntime) -> Result<(), Fail> {
    let whole = bytes(rt.alloc(), WHOLE)?;
    let journal = OwnedJournalStream::new(MemorySource::new(&whole), MANY);
    let mut left = Chosen::new(
        journal,
        AllBut {
            selection: Selection::all(),
            listed: None,
        },
    );
    let mut one = &mut left;
    let mut sink = MemorySink::new(rt.alloc());
    let joined = merge_all::<4, 4, 4, _, _>(rt.alloc(), &mut one, &mut sink)?;
    assert!(rt; joined.entries == 0);
    Ok(())
}

/// A fact, and a journal that is with its source.
#[test]
fn a_fact_and_a_journal_are_chained(rt: HostRuntime) -> Result<(), Fail> {
    let key = file().ok_or("a key")?;
    let whole = bytes(rt.alloc(), WHOLE)?;
    let mut journals = [OwnedJournalStream::new(MemorySource::new(&whole), MANY)];
    let mut fact = FactStream::new(Fact::InfoConflict { key });
    let all = Chained {
        first: &mut fact,
        others: &mut journals[..],
    };
    assert!(rt; all.count() == 2);
    Ok(())
}

/// Two facts, and a journal that is with its source.
#[test]
fn two_groups_of_streams_are_numbered(rt: HostRuntime) -> Result<(), Fail> {
    let first = file().ok_or("a key")?;
    let second = file().ok_or("a key")?;
    let whole = bytes(rt.alloc(), WHOLE)?;
    let mut journals = [OwnedJournalStream::new(MemorySource::new(&whole), MANY)];
    let mut facts = [
        FactStream::new(Fact::InfoConflict { key: first }),
        FactStream::new(Fact::InfoConflict { key: second }),
    ];
    let mut group = &mut facts[..];
    let all = Both {
        first: &mut group,
        second: &mut journals[..],
    };
    assert!(rt; all.count() == 3);
    Ok(())
}

/// A fact twice.
#[test]
fn two_facts_are_joined(rt: HostRuntime) -> Result<(), Fail> {
    let first = file().ok_or("a key")?;
    let second = file().ok_or("a key")?;
    let first = FactStream::new(Fact::InfoConflict { key: first });
    assert!(rt; first.address().is_none());
    let second = FactStream::new(Fact::InfoConflict { key: second });
    let mut streams = [first, second];
    let mut all = &mut streams[..];
    let mut sink = MemorySink::new(rt.alloc());
    let joined = join_streams::<4, 4, 4, _, _>(rt.alloc(), &mut all, &mut sink)?;
    assert!(rt; joined.entries == 1);
    Ok(())
}

/// What of the others a join would change the whole one by, and its stream begun anew.
#[test]
fn one_journal_is_taken_out_of_another(rt: HostRuntime) -> Result<(), Fail> {
    let whole = bytes(rt.alloc(), WHOLE)?;
    let others = bytes(rt.alloc(), OTHERS)?;
    let first = OwnedJournalStream::new(MemorySource::new(&others), MANY);
    let second = OwnedJournalStream::new(MemorySource::new(&whole), MANY);
    let mut minus = Minus::new(first, second);
    let mut sink = MemorySink::new(rt.alloc());
    assert!(rt; write_stream(rt.alloc(), &mut minus, &mut sink)? == 2);
    let first = OwnedJournalStream::new(MemorySource::new(&others), MANY);
    let second = OwnedJournalStream::new(MemorySource::new(&whole), MANY);
    let mut again = Minus::new(first, second);
    again.restart();
    assert!(rt; again.address().is_none());
    Ok(())
}

/// Takes rows, and keeps the last.
#[derive(Drop)]
struct LastRow {
    row: Option<Row>,
}

impl Rows for LastRow {
    ghost takes = { λ s rows t. Unit {0} };

    ghost fails = { λ s t. ⊥ };

    ghost none = { λ s. tt };

    ghost more = { λ s t u first then a b. tt };

    ghost later = { λ s t u first a b. b };

    fn row(&mut self, row: Row) -> Result<(), DeviceFault> {
        self.row = Some(row);
        Ok(())
    }
}

#[test]
fn journals_are_compared(rt: HostRuntime) -> Result<(), Fail> {
    let whole = bytes(rt.alloc(), WHOLE)?;
    let others = bytes(rt.alloc(), OTHERS)?;
    let mut first = OwnedJournalStream::new(MemorySource::new(&whole), MANY);
    let mut second = OwnedJournalStream::new(MemorySource::new(&others), MANY);
    let mut last = LastRow { row: None };
    compare_to(rt.alloc(), &mut first, &mut second, &mut last)?;
    let row = last.row.ok_or("a row")?;
    assert!(rt; row.differs());
    assert!(rt; matches!(row.information, Some(Side::First)));
    assert!(rt;
        matches!(
            row.symbols,
            Sides {
                same: 1,
                differ: 1,
                first: 0,
                second: 1
            }
        )
    );
    Ok(())
}
