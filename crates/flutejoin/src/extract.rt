//! The command `extract`: an object that is whole, written as its journal is read.
ghost use Rattle.std.specs.Prelude.{◌≡◌, ◌+◌, ℕ, false, List, [], Option, IfErr};
ghost use Rattle.flute_parts.specs.Facts.{Same};
ghost use Rattle.flute_parts.specs.declared.fact.Fact.{Fact as Known};
ghost use Rattle.flute_parts.specs.Devices.{times_failed};
ghost use Rattle.flute_journal.specs.Readers.{source_of, limit_of, state_of};
ghost use Rattle.flute_journal.specs.Stores.{FailsToLoad};
ghost use Rattle.flute_journal.specs.declared.readers.reader_state.ReaderState.TheVariants as ReaderState;
ghost use Rattle.flutejoin.specs.declared.limits.TheConstants.{MAX_ENTRIES};
ghost use Rattle.flutejoin.specs.Limits.{at_most};
ghost use Rattle.flutejoin.specs.Extract.{AnswersFrom, Extracts, WritesFirst, SinkFails};
ghost use Rattle.flutejoin.specs.ObjectWriters.{WritesNothing, PassesAll, Stands};
ghost use Rattle.flutejoin.specs.Show.{FailsToRead};

pub(crate) mod extract_all;
pub(crate) mod file_names;
pub(crate) mod object_files;
pub(crate) mod object_writer;
pub(crate) mod picked;

use crate::command_fault::{CommandFault, load_fault};
use crate::extract::object_writer::ObjectWriter;
use crate::limits::MAX_ENTRIES;
use flute_journal::{HeldEntry, JournalReader, LoadFault};
use flute_parts::{Key, Sink, Source, Tally};
use std::alloc::Global;

/// Writes the object that a journal of at most 16,777,216 entries makes whole, and returns how many
/// bytes it has: its symbols in the order of the partition, without the padding of the last one.
/// They are written as they are read, and one entry is held. Of any facts with the same values as
/// the journal's, the same object is written, and the same fault returned.
///
/// # Errors
///
/// The first of these that applies, wherever in the journal it is found:
///
/// - `Input` with the fault of the journal, as input 1, and `Full` if it has more than `SESSIONS`
///   sessions, `OBJECTS` objects of one or `SYMBOLS` symbols of one, whichever is met first;
/// - `NoObject` if nothing of the object is held, `NoInformation` if no information of it is,
///   `ConflictingInformation` if it has two values: nothing was written then;
/// - `NotWhole` with the first symbol of its partition that is not held as one fitting value;
/// - `CannotWrite` if the sink failed: it took a proper prefix of the object.
///
/// What was written is then a prefix of the symbols that are held, and no symbol after one
/// that is not.
pub fn extract_to<const SESSIONS: u32, const OBJECTS: u32, const SYMBOLS: u32, R: Source, W: Sink>(
    alloc: Global,
    source: &mut R,
    key: &Key,
    sink: &mut W,
) -> Result<u64, CommandFault>
    ensures extracts { AnswersFrom (at_most SESSIONS OBJECTS SYMBOLS)
        (R.unread source.old) (R.unread source.new)
        (λ F. Extracts W.written F key.now sink.old sink.new result) result }
    ensures as_others { (others : List Known)
        → AnswersFrom (at_most SESSIONS OBJECTS SYMBOLS)
        (R.unread source.old) (R.unread source.new)
        (λ F. Same F others → Extracts W.written others key.now sink.old sink.new result)
        result }
    ensures short { IfErr result
        (λ _. WritesFirst W.written (R.unread source.old) key.now sink.old sink.new) }
    ensures read_failures { FailsToRead (R.failures source.old) (R.failures source.new) result }
    ensures failures { SinkFails (W.failures sink.old) (W.failures sink.new) result }
{
    let mut writer = ObjectWriter::new(*key);
    let mut reader = JournalReader::new(source, MAX_ENTRIES);
    match read_into::<SESSIONS, OBJECTS, SYMBOLS, _, _>(alloc, &mut reader, &mut writer, sink) {
        Ok(()) => writer.end(),
        Err(fault) => Err(load_fault(1, fault)),
    }
}

// Shows all entries of a new journal to a new writer, up to a fault of the journal.
fn read_into<const SESSIONS: u32, const OBJECTS: u32, const SYMBOLS: u32, R: Source, W: Sink>(
    alloc: Global,
    reader: &mut JournalReader<'_, R>,
    writer: &mut ObjectWriter,
    sink: &mut W,
) -> Result<(), LoadFault>
    requires new { state_of reader.old ≡ ReaderState.Header }
    requires limit { limit_of reader.old ≡ MAX_ENTRIES }
    requires none { (start : Option (List ℕ)) → Stands [] writer.old start start }
    requires untouched { WritesNothing writer.old.found }
    requires good { writer.old.failed ≡ false }
    ensures same_source { (source_of reader.new).ghost_name ≡ (source_of reader.old).ghost_name }
    ensures same_key { writer.new.key ≡ writer.old.key }
    ensures passed { PassesAll (at_most SESSIONS OBJECTS SYMBOLS)
        (R.unread (source_of reader.old).now)
        (R.unread (source_of reader.new).now) writer.new
        (W.written sink.old) (W.written sink.new) result }
    ensures untouched { WritesNothing writer.new.found → sink.new ≡ sink.old }
    ensures read_failures { FailsToLoad (R.failures (source_of reader.old).now)
        (R.failures (source_of reader.new).now) result }
    ensures failures { W.failures sink.new ≡ W.failures sink.old
        + times_failed writer.new.failed }
{
    let mut tally = Tally::<SESSIONS, OBJECTS, SYMBOLS>::new();
    let mut held = HeldEntry::Nothing;
    loop {
        reader.next_into(alloc, &mut held)?;
        let Some(fact) = held.fact(reader.buffer()) else {
            return Ok(());
        };
        if !tally.count(&fact.address()) {
            return Err(LoadFault::Full);
        }
        writer.pass(&fact, sink);
    }
}
