//! The command `info --list`: adds transmission information of many objects.
ghost use Rattle.std.specs.Prelude.{◌≡◌, ◌+◌, OnOk, IfOk, IfErr};
ghost use Rattle.flute_streams.specs.StreamMerges.{AppendsNoJournal};
ghost use Rattle.flute_journal.specs.declared.fault.ReadFault.TheVariants.{Read};
ghost use Rattle.flutejoin.specs.InfoLists.{AddsList, AddListFails};
ghost use Rattle.flutejoin.specs.Limits.{IsCountable, at_most};
ghost use Rattle.flutejoin.specs.declared.command_fault.CommandFault.TheVariants.{CannotWrite};
ghost use Rattle.flutejoin.specs.declared.command_fault.CommandFault.TheVariants.{Input};

use crate::command_fault::CommandFault;
use crate::info::adding_facts::add_facts;
use crate::info::information_list::read_list;
use crate::limits::MAX_ENTRIES;
use flute_journal::JournalReader;
use flute_parts::{Sink, Source};
use flute_store::Store;
use flute_streams::WalkStream;
use std::alloc::Global;

/// Writes the journal of all that a journal contains, of at most 16,777,216 entries, and the
/// information that a list contains, and returns the number of its entries. Each line of the list
/// is as `show` prints it for information; lines that are empty or begin with `#` contain nothing.
/// If both contain different values of an object, they are in conflict from then on.
///
/// First the list is read, and its facts are held. Then the journal is read, of which one entry
/// is held.
///
/// # Errors
///
/// The first that is met: `ListLine` or `ListInformation` with the number, from 1, of the first
/// line at fault; `Full` if the list has more than `SESSIONS` sessions or `OBJECTS` objects of one;
/// `OutOfMemory` if there is none for them; `Input` with `Read` as input 2 if the source of the
/// list failed; and then those of `info_to`, as the journal is input 1. What was written is then no
/// journal.
pub fn info_list_to<
    const SESSIONS: u32,
    const OBJECTS: u32,
    const SYMBOLS: u32,
    R: Source,
    W: Sink,
>(alloc: Global, source: &mut R, list: &mut R, sink: &mut W) -> Result<u64, CommandFault>
    requires countable { IsCountable SESSIONS OBJECTS SYMBOLS }
    ensures added { IfOk result (λ count. AddsList (R.unread source.old) (R.unread list.old) count
        (W.written sink.old) (W.written sink.new)) }
    ensures failed { IfErr result (AddListFails (at_most SESSIONS OBJECTS SYMBOLS)
        (R.unread source.old) (R.unread list.old)) }
    ensures short { IfErr result
        (λ _. AppendsNoJournal (W.written sink.old) (W.written sink.new)) }
    ensures none_failed { OnOk result ((R.failures source.new ≡ R.failures source.old)
        × (R.failures list.new ≡ R.failures list.old)) }
    ensures source_failed { IfErr result (λ fault. fault ≡ Input 1 Read
        → R.failures source.new ≡ R.failures source.old + 1) }
    ensures list_failed { IfErr result (λ fault. fault ≡ Input 2 Read
        → R.failures list.new ≡ R.failures list.old + 1) }
    ensures sink_failures { OnOk result (W.failures sink.new ≡ W.failures sink.old) }
    ensures write_failed { IfErr result
        (λ fault. fault ≡ CannotWrite → W.failures sink.new ≡ W.failures sink.old + 1) }
{
    let told: Store<SESSIONS, OBJECTS, SYMBOLS> = read_list(alloc, list)?;
    let mut journal = JournalReader::new(source, MAX_ENTRIES);
    let mut facts = WalkStream::new(told.walk());
    add_facts::<SESSIONS, OBJECTS, SYMBOLS, _, _, _>(alloc, &mut journal, &mut facts, sink)
}
