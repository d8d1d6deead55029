//! Adds facts in memory to a journal, as it is copied.
ghost use Rattle.std.specs.Prelude.{◌≡◌, true, false, ◌+◌, ◌<◌, ◌^◌, List, []};
ghost use Rattle.std.specs.Prelude.{◌∷◌, OnOk, IfOk, IfErr};
ghost use Rattle.flute_parts.specs.declared.fact.Fact.{Fact as FactValue};
ghost use Rattle.flute_parts.specs.Devices.{times_failed};
ghost use Rattle.flute_streams.specs.Advances.{AreNew};
ghost use Rattle.flute_streams.specs.Eithers.{either_behaviour};
ghost use Rattle.flute_streams.specs.FirstFaults.{FirstFault};
ghost use Rattle.flute_streams.specs.JournalStreams.{SameLoans, lent_behaviour};
ghost use Rattle.flute_journal.specs.Readers.{source_of, limit_of, state_of};
ghost use Rattle.flute_streams.specs.StreamMerges.{AppendsNoJournal, MergedAll, NoneFails};
ghost use Rattle.flute_streams.specs.Streams.{IsNew, most_of};
ghost use Rattle.flute_streams.specs.declared.streams.either.Either.TheVariants.{First as Left};
ghost use Rattle.flute_streams.specs.declared.streams.either.Either.TheVariants.{Second as Right};
ghost use Rattle.flute_journal.specs.declared.readers.reader_state.ReaderState.TheVariants as ReaderState;
ghost use Rattle.flutejoin.specs.Info.{AddsFacts, InfoFails};
ghost use Rattle.flutejoin.specs.InfoLists.{IsInMemory, TellsSame};
ghost use Rattle.flutejoin.specs.Limits.{at_most};
ghost use Rattle.flutejoin.specs.Show.{FailsToRead};
ghost use Rattle.flutejoin.specs.declared.command_fault.CommandFault.TheVariants.{CannotWrite};
ghost use Rattle.flutejoin.specs.declared.limits.TheConstants.{MAX_ENTRIES};

use crate::command_fault::{CommandFault, load_fault};
use flute_journal::{HeldEntry, JournalReader};
use flute_parts::{Sink, Source};
use flute_streams::{Chained, InputFault, LentStream, MergedJournal, Stream, join_streams};
use std::alloc::Global;

/// Writes the journal of all that a new reader gives and of the facts of a new stream, and returns
/// the number of its entries.
///
/// # Errors
///
/// Those of `info_to`, and what it says of them.
pub(crate) fn add_facts<
    const SESSIONS: u32,
    const OBJECTS: u32,
    const SYMBOLS: u32,
    R: Source,
    S: Stream,
    W: Sink,
>(
    alloc: Global,
    journal: &mut JournalReader<'_, R>,
    facts: &mut S,
    sink: &mut W,
) -> Result<u64, CommandFault>
    requires journal_new { state_of journal.old ≡ ReaderState.Header }
    requires limit { limit_of journal.old ≡ MAX_ENTRIES }
    requires in_memory { IsInMemory S.behaviour facts.old }
    ensures same_source { (source_of journal.new).ghost_name
        ≡ (source_of journal.old).ghost_name }
    ensures added { (told : List FactValue) → TellsSame S.behaviour facts.old told
        → IfOk result (AddsFacts (R.unread (source_of journal.old).now) told
        (W.written sink.old) (W.written sink.new)) }
    ensures failed { (told : List FactValue) → TellsSame S.behaviour facts.old told
        → IfErr result (InfoFails (at_most SESSIONS OBJECTS SYMBOLS)
        (R.unread (source_of journal.old).now) told) }
    ensures short { IfErr result
        (λ _. AppendsNoJournal (W.written sink.old) (W.written sink.new)) }
    ensures failures { FailsToRead (R.failures (source_of journal.old).now)
        (R.failures (source_of journal.new).now) result }
    ensures sink_failures { OnOk result (W.failures sink.new ≡ W.failures sink.old) }
    ensures write_failed { IfErr result
        (λ fault. fault ≡ CannotWrite → W.failures sink.new ≡ W.failures sink.old + 1) }
{
    let mut held = HeldEntry::Nothing;
    let mut stream = LentStream {
        reader: &mut *journal,
        held: &mut held,
    };
    add_to_stream::<SESSIONS, OBJECTS, SYMBOLS, _, _, _>(alloc, &mut stream, facts, sink)
}

// Joins a new stream of a journal and one of facts.
fn add_to_stream<
    const SESSIONS: u32,
    const OBJECTS: u32,
    const SYMBOLS: u32,
    R: Source,
    S: Stream,
    W: Sink,
>(
    alloc: Global,
    journal: &mut LentStream<'_, '_, R>,
    facts: &mut S,
    sink: &mut W,
) -> Result<u64, CommandFault>
    requires journal_new { IsNew (lent_behaviour R.unread R.buffered R.failures) journal.old }
    requires journal_most { (lent_behaviour R.unread R.buffered R.failures).most journal.old
        ≡ MAX_ENTRIES }
    requires limit { limit_of journal.old.reader.now ≡ MAX_ENTRIES }
    requires in_memory { IsInMemory S.behaviour facts.old }
    ensures loans { SameLoans journal.old journal.new }
    ensures same_source { (source_of journal.new.reader.now).ghost_name
        ≡ (source_of journal.old.reader.now).ghost_name }
    ensures added { (told : List FactValue) → TellsSame S.behaviour facts.old told
        → IfOk result (AddsFacts (R.unread (source_of journal.old.reader.now).now) told
        (W.written sink.old) (W.written sink.new)) }
    ensures failed { (told : List FactValue) → TellsSame S.behaviour facts.old told
        → IfErr result (InfoFails (at_most SESSIONS OBJECTS SYMBOLS)
        (R.unread (source_of journal.old.reader.now).now) told) }
    ensures short { IfErr result
        (λ _. AppendsNoJournal (W.written sink.old) (W.written sink.new)) }
    ensures failures { FailsToRead (R.failures (source_of journal.old.reader.now).now)
        (R.failures (source_of journal.new.reader.now).now) result }
    ensures sink_failures { OnOk result (W.failures sink.new ≡ W.failures sink.old) }
    ensures write_failed { IfErr result
        (λ fault. fault ≡ CannotWrite → W.failures sink.new ≡ W.failures sink.old + 1) }
{
    match join_two::<SESSIONS, OBJECTS, SYMBOLS, _, _, _>(alloc, journal, facts, sink) {
        Err(fault) => Err(load_fault(fault.number + 1, fault.fault)),
        Ok(joined) if !joined.within => Err(CommandFault::Full),
        Ok(joined) if joined.cut => Err(CommandFault::CannotWrite),
        Ok(joined) => Ok(joined.entries),
    }
}

// Joins two streams.
#[tactic(auto, unfolding(flute_streams::specs::Chains::taken))]
fn join_two<
    const SESSIONS: u32,
    const OBJECTS: u32,
    const SYMBOLS: u32,
    S: Stream,
    T: Stream,
    W: Sink,
>(alloc: Global, first: &mut S, second: &mut T, sink: &mut W) -> Result<MergedJournal, InputFault>
    requires new { AreNew (either_behaviour S.behaviour T.behaviour)
        (Left first.old ∷ Right second.old ∷ []) }
    requires few { most_of (either_behaviour S.behaviour T.behaviour)
        (Left first.old ∷ Right second.old ∷ []) < 2 ^ 64 }
    ensures merged { IfOk result (λ joined. MergedAll (either_behaviour S.behaviour T.behaviour)
        (Left first.old ∷ Right second.old ∷ [])
        SESSIONS OBJECTS SYMBOLS joined (W.written sink.old) (W.written sink.new)) }
    ensures cut { IfOk result (λ joined. joined.cut ≡ true
        → AppendsNoJournal (W.written sink.old) (W.written sink.new)) }
    ensures over { IfOk result (λ joined. joined.within ≡ false → joined.cut ≡ true) }
    ensures short { IfErr result
        (λ _. AppendsNoJournal (W.written sink.old) (W.written sink.new)) }
    ensures first { IfErr result (FirstFault (either_behaviour S.behaviour T.behaviour)
        (Left first.old ∷ Right second.old ∷ []) (Left first.new ∷ Right second.new ∷ [])) }
    ensures failures { IfOk result (λ _. NoneFails (either_behaviour S.behaviour T.behaviour)
        (Left first.old ∷ Right second.old ∷ []) (Left first.new ∷ Right second.new ∷ [])) }
    ensures sink_failures { IfOk result (λ joined. joined.within ≡ true
        → W.failures sink.new ≡ W.failures sink.old + times_failed joined.cut) }
{
    let mut both = Chained {
        first: &mut *first,
        others: &mut *second,
    };
    join_streams::<SESSIONS, OBJECTS, SYMBOLS, _, _>(alloc, &mut both, sink)
}
