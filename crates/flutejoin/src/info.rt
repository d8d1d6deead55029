//! The command `info`: adds transmission information that a user enters.
ghost use Rattle.std.specs.Prelude.{◌≡◌, ◌+◌, [], ◌∷◌, OnOk, IfOk, IfErr};
ghost use Rattle.flute_parts.specs.declared.fact.Fact.TheVariants.{Info as InfoFact};
ghost use Rattle.flute_streams.specs.StreamMerges.{AppendsNoJournal};
ghost use Rattle.flutejoin.specs.declared.command_fault.CommandFault.TheVariants.{CannotWrite};
ghost use Rattle.flutejoin.specs.Info.{AddsFacts, InfoFails};
ghost use Rattle.flutejoin.specs.Limits.{at_most};
ghost use Rattle.flutejoin.specs.Show.{FailsToRead};

pub(crate) mod adding_facts;
pub(crate) mod info_list;
pub(crate) mod information_line;
pub(crate) mod information_list;

use crate::command_fault::CommandFault;
use crate::info::adding_facts::add_facts;
use crate::limits::MAX_ENTRIES;
use flute_journal::JournalReader;
use flute_parts::{Fact, Info, Key, Sink, Source};
use flute_streams::FactStream;
use std::alloc::Global;

/// Writes the journal of all that a journal contains, of at most 16,777,216 entries, and the
/// information of an object with it, and returns the number of its entries, which may be one more.
/// If the journal contains other information of that object, the two are in conflict from then on.
/// One entry is held.
///
/// # Errors
///
/// The first that is met: `Input` with the fault of the journal, as input 1; `Full` if both
/// together have more than `SESSIONS` sessions, `OBJECTS` objects of one or `SYMBOLS` symbols of
/// one; `CannotWrite` if the sink failed. What was written is then no journal.
pub fn info_to<const SESSIONS: u32, const OBJECTS: u32, const SYMBOLS: u32, R: Source, W: Sink>(
    alloc: Global,
    source: &mut R,
    key: Key,
    info: Info,
    sink: &mut W,
) -> Result<u64, CommandFault>
    ensures added { IfOk result (AddsFacts (R.unread source.old) (InfoFact key info ∷ [])
        (W.written sink.old) (W.written sink.new)) }
    ensures failed { IfErr result (InfoFails (at_most SESSIONS OBJECTS SYMBOLS)
        (R.unread source.old) (InfoFact key info ∷ [])) }
    ensures short { IfErr result
        (λ _. AppendsNoJournal (W.written sink.old) (W.written sink.new)) }
    ensures read_failures { FailsToRead (R.failures source.old) (R.failures source.new) result }
    ensures sink_failures { OnOk result (W.failures sink.new ≡ W.failures sink.old) }
    ensures write_failed { IfErr result
        (λ fault. fault ≡ CannotWrite → W.failures sink.new ≡ W.failures sink.old + 1) }
{
    let mut journal = JournalReader::new(source, MAX_ENTRIES);
    let mut fact = FactStream::new(Fact::Info { key, info });
    add_facts::<SESSIONS, OBJECTS, SYMBOLS, _, _, _>(alloc, &mut journal, &mut fact, sink)
}
