//! A walk over the objects of a journal: the loop over its entries, which every command that goes
//! object by object shares.
ghost use Rattle.std.specs.Prelude.{◌≡◌, ◌+◌, [], None, IfErr, OnOk};
ghost use Rattle.std.specs.Io.KnownBytes.{IsAtEnd};
ghost use Rattle.flutejoin.specs.Gaps.{GapsFail, ListsJournal, ReadsWithin};
ghost use Rattle.flutejoin.specs.Limits.{at_most};
ghost use Rattle.flutejoin.specs.Packet.{write_failures};
ghost use Rattle.flutejoin.specs.Show.{FailsToRead};

pub(crate) mod object_walk;
pub(crate) mod visitor;

use crate::command_fault::CommandFault;
use crate::limits::MAX_ENTRIES;
use crate::next_entry::next_entry;
use crate::picks::Picks;
use crate::walk::object_walk::ObjectWalk;
use crate::walk::visitor::Visitor;
use flute_journal::{HeldEntry, JournalReader};
use flute_parts::{Source, Tally};
use std::alloc::Global;

/// Tells the visitor of the objects of the journal that the source gives, of at most 16,777,216
/// entries, of which only those that are picked count. One entry is held.
///
/// # Errors
///
/// The first that is met: `Input` with the fault of the journal, as input 1; `Full` if it has more
/// than `SESSIONS` sessions, `OBJECTS` objects of one or `SYMBOLS` symbols of one; `CannotWrite` if
/// the visitor failed.
pub fn walk_objects<
    const SESSIONS: u32,
    const OBJECTS: u32,
    const SYMBOLS: u32,
    R: Source,
    P: Picks,
    V: Visitor,
>(alloc: Global, source: &mut R, picks: &P, visitor: &mut V) -> Result<(), CommandFault>
    requires { (at : V.At) × V.Has at [] None visitor.old }
    ensures told { (at : V.At) → V.Has at [] None visitor.old
        → OnOk result (ListsJournal (at_most SESSIONS OBJECTS SYMBOLS) (P.picks picks.now)
        (R.unread source.old) (λ objects. V.Has at objects None visitor.new)) }
    ensures within { OnOk result (ReadsWithin (at_most SESSIONS OBJECTS SYMBOLS)
        (R.unread source.old) (R.unread source.new)) }
    ensures end { OnOk result (IsAtEnd (R.unread source.new)) }
    ensures failed { IfErr result (GapsFail (at_most SESSIONS OBJECTS SYMBOLS)
        (R.unread source.old) (R.unread source.new)) }
    ensures kept { V.kept visitor.new ≡ V.kept visitor.old }
    ensures read_failures { FailsToRead (R.failures source.old) (R.failures source.new) result }
    ensures failures { V.fails visitor.new ≡ V.fails visitor.old + write_failures result }
{
    let mut walk = ObjectWalk::new();
    let mut tally = Tally::<SESSIONS, OBJECTS, SYMBOLS>::new();
    let mut reader = JournalReader::new(source, MAX_ENTRIES);
    let mut held = HeldEntry::Nothing;
    loop {
        next_entry(alloc, &mut reader, &mut held, &mut tally)?;
        let Some(fact) = held.fact(reader.buffer()) else {
            break;
        };
        if picks.picks(&fact) {
            let Ok(()) = walk.add(&fact, visitor) else {
                reader.let_go(alloc, &mut held);
                return Err(CommandFault::CannotWrite);
            };
        }
    }
    walk.close(visitor)?;
    Ok(())
}
