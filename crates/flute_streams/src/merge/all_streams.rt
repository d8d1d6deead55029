//! Merges any number of streams into one journal.
ghost use Rattle.std.specs.Prelude.{◌≡◌, ◌≢◌, true, false, ◌+◌, ◌<◌, ◌≤◌};
ghost use Rattle.std.specs.Prelude.{◌^◌, IfOk, IfErr, length};
ghost use Rattle.flute_streams.specs.declared.merge.streams_fault.StreamsFault.TheVariants.{Write};
ghost use Rattle.flute_parts.specs.Devices.{times_failed};
ghost use Rattle.flute_streams.specs.Streams.{most_of};
ghost use Rattle.flute_streams.specs.Advances.{AreNew};
ghost use Rattle.flute_streams.specs.FirstFaults.{FirstFault};
ghost use Rattle.flute_streams.specs.StreamMerges.{MergedAll, AppendsPartOf, ReadsAhead};
ghost use Rattle.flute_streams.specs.StreamMerges.{NamesInput, CanGoOn, FailAs, NoneFails};
ghost use Rattle.flute_streams.specs.StreamMerges.{AppendsNoJournal, EndsMerged};
ghost use Rattle.flute_streams.specs.StreamMerges.{streams_sink_failed};

use crate::merge::advance::advance_at;
use crate::merge::leading::Lead;
use crate::merge::lowest::write_lowest;
use crate::merge::ranks::Ranks;
use crate::merge::stopped::first_fault;
use crate::merge::streams_fault::{InputFault, StreamsFault};
use crate::streams::Streams;
use flute_journal::JournalWriter;
use flute_parts::{Sink, Tally};
use std::alloc::Global;

/// The journal that a merge wrote.
#[derive(Clone, Copy)]
pub struct MergedJournal {
    /// The number of its entries.
    pub entries: u64,
    /// Whether its facts are within the limits of a store.
    pub within: bool,
    /// Whether only a part of the journal was written: the sink has failed, or the end was left
    /// out.
    pub cut: bool,
}

/// Appends the journal of all that streams contain, and returns the number of its entries, and
/// whether they are within the limits: at most `SESSIONS` sessions, `OBJECTS` objects of each and
/// `SYMBOLS` symbols of each of these.
///
/// The first fact of each stream is taken, and then the header written. Each turn writes what the
/// streams hold at the lowest address, and then advances each of those that were there, in their
/// order. It takes no memory of its own.
///
/// # Errors
///
/// - `Input` with the number of the stream, from 0, and the fault that it met;
/// - `Write` if the sink failed.
///
/// What was appended is then no journal of anything. If each stream would have come to its end,
/// it is a proper prefix of the journal of all; after `Input` it is whole entries
/// after the header, or nothing. Of each stream, the facts at addresses whose entry was appended
/// whole were read, and at most one more.
pub fn merge_all<const SESSIONS: u32, const OBJECTS: u32, const SYMBOLS: u32, G: Streams, W: Sink>(
    alloc: Global,
    streams: &mut G,
    sink: &mut W,
) -> Result<MergedJournal, StreamsFault>
    requires new { AreNew G.behaviour (G.streams streams.old) }
    requires few { most_of G.behaviour (G.streams streams.old) < 2 ^ 64 }
    ensures merged { IfOk result (λ joined. MergedAll G.behaviour
        (G.streams streams.old) SESSIONS OBJECTS SYMBOLS joined
        (W.written sink.old) (W.written sink.new)) }
    ensures done { IfOk result (λ joined. joined.cut ≡ false) }
    ensures short { IfErr result (λ _. AppendsPartOf G.behaviour (G.streams streams.old)
        (W.written sink.old) (W.written sink.new)) }
    ensures reads_ahead { IfErr result (ReadsAhead G.behaviour
        (G.streams streams.old) (G.streams streams.new)
        (W.written sink.old) (W.written sink.new)) }
    ensures fault { IfErr result (NamesInput G.behaviour (G.streams streams.old)) }
    ensures can_go_on { IfErr result
        (CanGoOn G.behaviour (G.streams streams.old) (G.streams streams.new)) }
    ensures failures { FailAs G.behaviour result (G.streams streams.old)
        (G.streams streams.new) }
    ensures ended { IfOk result (λ joined. EndsMerged G.behaviour
        (G.streams streams.old) (G.streams streams.new) SESSIONS OBJECTS SYMBOLS joined
        (W.written sink.old) (W.written sink.new)) }
    ensures sink_failures { W.failures sink.new ≡ W.failures sink.old + streams_sink_failed result }
    ensures names { G.names streams.new ≡ G.names streams.old }
{
    let mut writer = JournalWriter::new(&mut *sink);
    merge_into::<SESSIONS, OBJECTS, SYMBOLS, _, _>(alloc, streams, &mut writer, false)
}

/// Appends the journal of all that streams contain, as `merge_all` does, but continues if the sink
/// has failed: each stream is still read to its end, and its fault is reported whatever became of
/// the sink. The end is left out if all the streams together are over the
/// limits: what was appended is then no journal of anything.
///
/// # Errors
///
/// The fault of the first stream, in their order, that has one: those before one that stopped are
/// read to their ends. What was appended is then no journal of anything.
#[tactic(auto, using(crate::proofs::Cited::stopped_of, crate::proofs::Cited::gave_of))]
pub fn join_streams<
    const SESSIONS: u32,
    const OBJECTS: u32,
    const SYMBOLS: u32,
    G: Streams,
    W: Sink,
>(alloc: Global, streams: &mut G, sink: &mut W) -> Result<MergedJournal, InputFault>
    requires new { AreNew G.behaviour (G.streams streams.old) }
    requires few { most_of G.behaviour (G.streams streams.old) < 2 ^ 64 }
    ensures merged { IfOk result (λ joined. MergedAll G.behaviour
        (G.streams streams.old) SESSIONS OBJECTS SYMBOLS joined
        (W.written sink.old) (W.written sink.new)) }
    ensures cut { IfOk result (λ joined. joined.cut ≡ true
        → AppendsNoJournal (W.written sink.old) (W.written sink.new)) }
    ensures short { IfErr result (λ _. AppendsPartOf G.behaviour (G.streams streams.old)
        (W.written sink.old) (W.written sink.new)) }
    ensures first { IfErr result
        (FirstFault G.behaviour (G.streams streams.old) (G.streams streams.new)) }
    ensures failures { IfOk result
        (λ _. NoneFails G.behaviour (G.streams streams.old) (G.streams streams.new)) }
    ensures over { IfOk result (λ joined. joined.within ≡ false → joined.cut ≡ true) }
    ensures ended { IfOk result (λ joined. EndsMerged G.behaviour
        (G.streams streams.old) (G.streams streams.new) SESSIONS OBJECTS SYMBOLS joined
        (W.written sink.old) (W.written sink.new)) }
    ensures sink_failures { IfOk result (λ joined. joined.within ≡ true
        → W.failures sink.new ≡ W.failures sink.old + times_failed joined.cut) }
    ensures sink_fails { W.failures sink.new ≤ W.failures sink.old + 1 }
    ensures as_many { length (G.streams streams.new) ≡ length (G.streams streams.old) }
    ensures names { G.names streams.new ≡ G.names streams.old }
{
    let mut writer = JournalWriter::new(&mut *sink);
    match merge_into::<SESSIONS, OBJECTS, SYMBOLS, _, _>(alloc, streams, &mut writer, true) {
        Ok(joined) => Ok(joined),
        Err(StreamsFault::Input(fault)) => Err(first_fault(alloc, streams, fault)),
        Err(StreamsFault::Write) => unreachable!(),
    }
}

// Merges streams into what a writer writes. It stops if that has failed, unless it is patient:
// it then leaves out the end if the streams together are over the limits.
#[tactic(auto, using(crate::proofs::merge_lemmas::StreamStates::turns))]
fn merge_into<const SESSIONS: u32, const OBJECTS: u32, const SYMBOLS: u32, G: Streams, W: Sink>(
    alloc: Global,
    streams: &mut G,
    writer: &mut JournalWriter<'_, W>,
    patient: bool,
) -> Result<MergedJournal, StreamsFault>
    requires new { AreNew G.behaviour (G.streams streams.old) }
    requires few { most_of G.behaviour (G.streams streams.old) < 2 ^ 64 }
    requires good { writer.old.failed ≡ false }
    ensures merged { IfOk result (λ joined. MergedAll G.behaviour
        (G.streams streams.old) SESSIONS OBJECTS SYMBOLS joined
        (W.written writer.old.sink.now) (W.written writer.new.sink.now)) }
    ensures told { IfOk result
        (λ joined. joined.within ≡ true → joined.cut ≡ writer.new.failed) }
    ensures told_all { IfOk result
        (λ joined. patient ≡ false → joined.cut ≡ writer.new.failed) }
    ensures over { IfOk result
        (λ joined. patient ≡ true → joined.within ≡ false → joined.cut ≡ true) }
    ensures cut { IfOk result (λ joined. joined.cut ≡ true → AppendsNoJournal
        (W.written writer.old.sink.now) (W.written writer.new.sink.now)) }
    ensures ended { IfOk result (λ joined. EndsMerged G.behaviour
        (G.streams streams.old) (G.streams streams.new) SESSIONS OBJECTS SYMBOLS joined
        (W.written writer.old.sink.now) (W.written writer.new.sink.now)) }
    ensures short { IfErr result (λ _. AppendsPartOf G.behaviour (G.streams streams.old)
        (W.written writer.old.sink.now) (W.written writer.new.sink.now)) }
    ensures reads_ahead { patient ≡ false → IfErr result (ReadsAhead G.behaviour
        (G.streams streams.old) (G.streams streams.new)
        (W.written writer.old.sink.now) (W.written writer.new.sink.now)) }
    ensures eager { patient ≡ false
        → times_failed writer.new.failed ≡ streams_sink_failed result }
    ensures patience { IfErr result (λ fault. patient ≡ true → fault ≢ Write) }
    ensures fault { IfErr result (NamesInput G.behaviour (G.streams streams.old)) }
    ensures can_go_on { IfErr result
        (CanGoOn G.behaviour (G.streams streams.old) (G.streams streams.new)) }
    ensures failures { FailAs G.behaviour result (G.streams streams.old)
        (G.streams streams.new) }
    ensures sink_failures { W.failures writer.new.sink.now
        ≡ W.failures writer.old.sink.now + times_failed writer.new.failed }
    ensures same_sink { writer.new.sink.ghost_name ≡ writer.old.sink.ghost_name }
    ensures names { G.names streams.new ≡ G.names streams.old }
{
    if let Err(fault) = advance_at(alloc, streams, None, 0) {
        return Err(StreamsFault::Input(fault));
    }
    writer.header();
    if writer.failed && !patient {
        return Err(StreamsFault::Write);
    }
    let mut tally = Tally::<SESSIONS, OBJECTS, SYMBOLS>::new();
    let mut within = true;
    let mut entries = 0;
    let mut lead = Lead::new();
    let mut ranks = Ranks::new();
    while let Some(lowest) = lead.lowest(&ranks, streams) {
        write_lowest(streams, &lowest, writer);
        if writer.failed && !patient {
            return Err(StreamsFault::Write);
        }
        let first = lowest.number;
        let Some(place) = streams.address(first) else {
            unreachable!();
        };
        let place = *place;
        within = within && tally.count(&place);
        if let Err(fault) = lead.advance::<G, W>(&mut ranks, alloc, streams, &place, first) {
            return Err(StreamsFault::Input(fault));
        }
        entries += 1;
    }
    if patient && !within {
        return Ok(MergedJournal {
            entries,
            within,
            cut: true,
        });
    }
    writer.end(entries);
    if writer.failed && !patient {
        return Err(StreamsFault::Write);
    }
    let cut = writer.failed;
    Ok(MergedJournal {
        entries,
        within,
        cut,
    })
}
