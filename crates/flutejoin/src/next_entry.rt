//! Reads the next entry of a journal, and tests the limits with it.
ghost use Rattle.std.specs.Prelude.{◌≡◌, ℕ, List, Option};
ghost use Rattle.flute_parts.specs.declared.fact.Fact.{Fact as Known};
ghost use Rattle.flute_journal.specs.Readers.{source_of};
ghost use Rattle.flutejoin.specs.NextEntry.{HasRead, ReadsOn, holding};
ghost use Rattle.flutejoin.specs.Show.{FailsToRead};

use crate::command_fault::{CommandFault, at_input};
use flute_journal::{HeldEntry, JournalReader};
use flute_parts::{Source, Tally};
use std::alloc::Global;

/// Lets go of the entry that is held, and holds the next, or none at the end. The tally has counted
/// the entries before.
///
/// # Errors
///
/// `Input` with the first fault of the journal, as input 1; `Full` if the journal has more than
/// `SESSIONS` sessions, `OBJECTS` objects of one or `SYMBOLS` symbols of one so far. Nothing is to
/// be read any more then.
#[inline(always)]
pub fn next_entry<const SESSIONS: u32, const OBJECTS: u32, const SYMBOLS: u32, R: Source>(
    alloc: Global,
    reader: &mut JournalReader<'_, R>,
    held: &mut HeldEntry,
    tally: &mut Tally<SESSIONS, OBJECTS, SYMBOLS>,
) -> Result<(), CommandFault>
    ensures source { (source_of reader.new).ghost_name ≡ (source_of reader.old).ghost_name }
    ensures next { (input : Option (List ℕ)) (entries : List Known)
        → HasRead R.unread R.buffered input entries (holding reader.old held.old) tally.old
        → ReadsOn R.unread R.buffered input entries (holding reader.new held.new) tally.new
        result }
    ensures failures { (input : Option (List ℕ)) (entries : List Known)
        → HasRead R.unread R.buffered input entries (holding reader.old held.old) tally.old
        → FailsToRead (R.failures (source_of reader.old).now)
        (R.failures (source_of reader.new).now) result }
{
    at_input(1, reader.next_into(alloc, held))?;
    if let Some(place) = held.address() {
        if !tally.count(place) {
            return Err(CommandFault::Full);
        }
    }
    Ok(())
}
