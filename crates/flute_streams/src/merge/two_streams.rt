//! Two journals, merged as streams: nothing is kept of them but the next entry of each.
ghost use Rattle.std.specs.Prelude.{◌≡◌, false, ℕ, ◌+◌, ◌<◌, ◌^◌, [], ◌∷◌, IfOk, IfErr};
ghost use Rattle.flute_journal.specs.Readers.{source_of, limit_of, state_of};
ghost use Rattle.flute_streams.specs.Merges.{Merged, StopsShort, KeepsUp, NamesFault, MergeGives};
ghost use Rattle.flute_streams.specs.Merges.{FirstFails, SecondFails, sink_failed};
ghost use Rattle.flute_streams.specs.Streams.{IsNew, most_of};
ghost use Rattle.flute_streams.specs.Advances.{AreNew};
ghost use Rattle.flute_streams.specs.Eithers.{either_behaviour};
ghost use Rattle.flute_streams.specs.JournalStreams.{lent_behaviour, SameLoans};
ghost use Rattle.flute_streams.specs.StreamMerges.{MergedAll, AppendsPartOf, ReadsAhead};
ghost use Rattle.flute_streams.specs.StreamMerges.{NamesInput, CanGoOn, FailAs};
ghost use Rattle.flute_streams.specs.StreamMerges.{streams_sink_failed};
ghost use Rattle.flute_streams.specs.Pairs.{IsOfReading, IsFaultOfTwo};
ghost use Rattle.flute_journal.specs.declared.readers.reader_state.ReaderState.TheVariants as ReaderState;
ghost use Rattle.flute_streams.specs.declared.streams.either.Either.TheVariants.{First as Left};
ghost use Rattle.flute_streams.specs.declared.streams.either.Either.TheVariants.{Second as Right};

use crate::merge::all_streams::{MergedJournal, merge_all};
use crate::merge::streams_fault::{InputFault, StreamsFault};
use crate::streams::chained::Chained;
use crate::streams::lent_stream::LentStream;
use crate::streams::stream::Stream;
use flute_journal::{HeldEntry, JournalReader, LoadFault, ReadFault};
use flute_parts::{Sink, Source};
use std::alloc::Global;
use thiserror::Error;

/// Why two journals could not be merged.
#[derive(Clone, Copy, Debug, Error)]
pub enum MergeFault {
    /// The first input is no journal, or it could not be read.
    #[error("First {0}")]
    First(ReadFault),
    /// The second input is no journal, or it could not be read.
    #[error("Second {0}")]
    Second(ReadFault),
    /// The sink failed.
    #[error("Write")]
    Write,
}

/// Appends the journal of all that two journals contain, and returns the number of its entries.
/// Each may have at most `max_entries` entries, which are fewer than 2^63.
///
/// The first entry of each is read, and then the header written. Each turn writes the entry at the
/// lower address, or at an equal address the value of both, and then reads the next entry of each
/// input whose entry was used, of `first` before `second`. One entry of each input is held, and the
/// bytes of its symbol are the only memory that is taken.
///
/// # Errors
///
/// - `First` and `Second` with the fault of that input that its reader met: the first fault
///   of its bytes; or `Read` if the source failed, and `OutOfMemory` if there was no
///   memory for a symbol.
/// - `Write` if the sink failed.
///
/// What was appended is then no journal of anything. If both inputs are journals it is a proper
/// prefix of the journal of both; after `First` or `Second` it is whole entries
/// after the header, or nothing. Of each input, the entries at addresses whose entry was appended
/// whole were read whole, and at most one more.
pub fn merge_streams<A: Source, B: Source, W: Sink>(
    alloc: Global,
    first: &mut A,
    second: &mut B,
    sink: &mut W,
    max_entries: u64,
) -> Result<u64, MergeFault>
    requires bound { max_entries < 2 ^ 63 }
    ensures merged { IfOk result (λ n. Merged max_entries n (A.unread first.old)
        (B.unread second.old) (W.written sink.old) (W.written sink.new)) }
    ensures short { IfErr result (λ _. StopsShort (A.unread first.old) (B.unread second.old)
        (W.written sink.old) (W.written sink.new)) }
    ensures keeps_up { IfErr result (KeepsUp (A.unread first.old) (A.unread first.new)
        (B.unread second.old) (B.unread second.new)
        (W.written sink.old) (W.written sink.new)) }
    ensures fault { IfErr result
        (NamesFault max_entries (A.unread first.old) (B.unread second.old)) }
    ensures first_failures { FirstFails (A.failures first.old) (A.failures first.new) result }
    ensures second_failures { SecondFails (B.failures second.old) (B.failures second.new) result }
    ensures sink_failures { W.failures sink.new ≡ W.failures sink.old + sink_failed result }
{
    let mut first = JournalReader::new(first, max_entries);
    let mut second = JournalReader::new(second, max_entries);
    merge_readers(alloc, &mut first, &mut second, sink)
}

// Merges what two new readers give.
fn merge_readers<A: Source, B: Source, W: Sink>(
    alloc: Global,
    first: &mut JournalReader<'_, A>,
    second: &mut JournalReader<'_, B>,
    sink: &mut W,
) -> Result<u64, MergeFault>
    requires first_new { state_of first.old ≡ ReaderState.Header }
    requires second_new { state_of second.old ≡ ReaderState.Header }
    requires bound { limit_of first.old < 2 ^ 63 }
    requires same_bound { limit_of second.old ≡ limit_of first.old }
    ensures first_source { (source_of first.new).ghost_name ≡ (source_of first.old).ghost_name }
    ensures second_source { (source_of second.new).ghost_name ≡ (source_of second.old).ghost_name }
    ensures gives { MergeGives (limit_of first.old) (A.unread (source_of first.old).now)
        (A.unread (source_of first.new).now)
        (B.unread (source_of second.old).now) (B.unread (source_of second.new).now)
        (W.written sink.old) (W.written sink.new) result }
    ensures first_failures { FirstFails (A.failures (source_of first.old).now)
        (A.failures (source_of first.new).now) result }
    ensures second_failures { SecondFails (B.failures (source_of second.old).now)
        (B.failures (source_of second.new).now) result }
    ensures sink_failures { W.failures sink.new ≡ W.failures sink.old + sink_failed result }
{
    let mut first_held = HeldEntry::Nothing;
    let mut second_held = HeldEntry::Nothing;
    let mut left = LentStream {
        reader: &mut *first,
        held: &mut first_held,
    };
    let mut right = LentStream {
        reader: &mut *second,
        held: &mut second_held,
    };
    merge_new(alloc, &mut left, &mut right, sink)
}

// Merges two new streams of journals, and lets go of what they hold.
#[tactic(auto, using(crate::proofs::merge_lemmas::Twos::reading_two))]
fn merge_new<A: Source, B: Source, W: Sink>(
    alloc: Global,
    first: &mut LentStream<'_, '_, A>,
    second: &mut LentStream<'_, '_, B>,
    sink: &mut W,
) -> Result<u64, MergeFault>
    requires first_new { IsNew (lent_behaviour A.unread A.buffered A.failures) first.old }
    requires second_new { IsNew (lent_behaviour B.unread B.buffered B.failures) second.old }
    requires first_bound { (lent_behaviour A.unread A.buffered A.failures).most first.old < 2 ^ 63 }
    requires second_bound { (lent_behaviour B.unread B.buffered B.failures).most second.old
        < 2 ^ 63 }
    requires same_bound { limit_of second.old.reader.now ≡ limit_of first.old.reader.now }
    ensures first_loans { SameLoans first.old first.new }
    ensures second_loans { SameLoans second.old second.new }
    ensures first_source { (source_of first.new.reader.now).ghost_name
        ≡ (source_of first.old.reader.now).ghost_name }
    ensures second_source { (source_of second.new.reader.now).ghost_name
        ≡ (source_of second.old.reader.now).ghost_name }
    ensures gives { MergeGives (limit_of first.old.reader.now)
        (A.unread (source_of first.old.reader.now).now)
        (A.unread (source_of first.new.reader.now).now)
        (B.unread (source_of second.old.reader.now).now)
        (B.unread (source_of second.new.reader.now).now)
        (W.written sink.old) (W.written sink.new) result }
    ensures first_failures { FirstFails (A.failures (source_of first.old.reader.now).now)
        (A.failures (source_of first.new.reader.now).now) result }
    ensures second_failures { SecondFails (B.failures (source_of second.old.reader.now).now)
        (B.failures (source_of second.new.reader.now).now) result }
    ensures sink_failures { W.failures sink.new ≡ W.failures sink.old + sink_failed result }
{
    // `within` is not used, so the limits are 0, and nothing is counted
    let result = merge_two::<0, 0, 0, _, _, _>(alloc, first, second, sink);
    first.reader.let_go(alloc, first.held);
    second.reader.let_go(alloc, second.held);
    match result {
        Ok(joined) => Ok(joined.entries),
        Err(fault) => Err(fault_of_two(fault)),
    }
}

/// Merges two streams of whatever kinds, as `merge_all` does.
///
/// # Errors
///
/// Those of `merge_all`, and what it says of them: the first stream has number 0, and the second 1.
#[tactic(auto, unfolding(crate::specs::Chains::taken))]
pub fn merge_two<
    const SESSIONS: u32,
    const OBJECTS: u32,
    const SYMBOLS: u32,
    S: Stream,
    T: Stream,
    W: Sink,
>(alloc: Global, first: &mut S, second: &mut T, sink: &mut W) -> Result<MergedJournal, StreamsFault>
    requires new { AreNew (either_behaviour S.behaviour T.behaviour)
        (Left first.old ∷ Right second.old ∷ []) }
    requires few { most_of (either_behaviour S.behaviour T.behaviour)
        (Left first.old ∷ Right second.old ∷ []) < 2 ^ 64 }
    ensures merged { IfOk result (λ joined. MergedAll (either_behaviour S.behaviour T.behaviour)
        (Left first.old ∷ Right second.old ∷ [])
        SESSIONS OBJECTS SYMBOLS joined (W.written sink.old) (W.written sink.new)) }
    ensures done { IfOk result (λ joined. joined.cut ≡ false) }
    ensures short { IfErr result (λ _. AppendsPartOf (either_behaviour S.behaviour T.behaviour)
        (Left first.old ∷ Right second.old ∷ [])
        (W.written sink.old) (W.written sink.new)) }
    ensures reads_ahead { IfErr result (ReadsAhead (either_behaviour S.behaviour T.behaviour)
        (Left first.old ∷ Right second.old ∷ [])
        (Left first.new ∷ Right second.new ∷ []) (W.written sink.old) (W.written sink.new)) }
    ensures fault { IfErr result (NamesInput (either_behaviour S.behaviour T.behaviour)
        (Left first.old ∷ Right second.old ∷ [])) }
    ensures can_go_on { IfErr result (CanGoOn (either_behaviour S.behaviour T.behaviour)
        (Left first.old ∷ Right second.old ∷ []) (Left first.new ∷ Right second.new ∷ [])) }
    ensures failures { FailAs (either_behaviour S.behaviour T.behaviour) result
        (Left first.old ∷ Right second.old ∷ []) (Left first.new ∷ Right second.new ∷ []) }
    ensures sink_failures { W.failures sink.new ≡ W.failures sink.old + streams_sink_failed result }
{
    let mut both = Chained {
        first: &mut *first,
        others: &mut *second,
    };
    merge_all::<SESSIONS, OBJECTS, SYMBOLS, _, _>(alloc, &mut both, sink)
}

// The fault of a merge of two journals.
fn fault_of_two(fault: StreamsFault) -> MergeFault
    requires { IsOfReading fault }
    ensures { IsFaultOfTwo fault result }
{
    match fault {
        StreamsFault::Input(
            InputFault {
                number,
                fault: LoadFault::Read(fault),
            },
        ) => {
            if number == 0 {
                MergeFault::First(fault)
            } else {
                MergeFault::Second(fault)
            }
        }
        StreamsFault::Input(_) => unreachable!(),
        StreamsFault::Write => MergeFault::Write,
    }
}
