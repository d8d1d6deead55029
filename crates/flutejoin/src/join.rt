//! The command `join`: inputs, joined as streams.
ghost use Rattle.std.specs.Prelude.{◌≡◌, true, false, ◌≤◌, ◌<◌, ◌+◌, ◌-◌, ◌^◌, List, ℕ, length};
ghost use Rattle.std.specs.Prelude.{min, sum_by, OnOk, IfOk, IfErr, MatchResult, Ok, Err, ◌⊎◌};
ghost use Rattle.std.specs.List.{AllByRecursion};
ghost use Rattle.flute_parts.specs.Devices.{times_failed};
ghost use Rattle.flute_parts.specs.declared.fact.Fact.{Fact};
ghost use Rattle.flute_streams.specs.StreamMerges.{AppendsNoJournal};
ghost use Rattle.flute_journal.specs.declared.fault.ReadFault.TheVariants.{Read};
ghost use Rattle.flutejoin.specs.declared.command_fault.CommandFault.TheVariants.{Input};
ghost use Rattle.flutejoin.specs.declared.command_fault.CommandFault.TheVariants.{OutOfMemory};
ghost use Rattle.flutejoin.specs.declared.command_fault.CommandFault.TheVariants.{CannotWrite};
ghost use Rattle.flutejoin.specs.declared.command_fault.CommandFault.TheVariants.{CannotPutAside};
ghost use Rattle.flutejoin.specs.Asides.{AreHeld, IsNewRun, Makes};
ghost use Rattle.flutejoin.specs.JoinInputs.{AreInputs};
ghost use Rattle.flutejoin.specs.InputStreams.{passed_over, NoneFailed, OneFailed};
ghost use Rattle.flutejoin.specs.Joined.{Choice, choice_of};
ghost use Rattle.flutejoin.specs.Joining.{JoinsTo};
ghost use Rattle.flutejoin.specs.JoinFaults.{JoinToFails, NamesOneOf, WantsAside};
ghost use Rattle.flutejoin.specs.JoinParts.{AreInspected, IsReady, JoinsInspected};
ghost use Rattle.flutejoin.specs.JoinParts.{AreNewlyHeld, End, StopsJoin};
ghost use Rattle.flutejoin.specs.Status.{of_stop};
ghost use Rattle.flutejoin.specs.Limits.{IsCountable, at_most};

pub(crate) mod held_files;
pub(crate) mod held_size;
pub(crate) mod inspecting;
pub(crate) mod join_counts;
pub(crate) mod join_input;
pub(crate) mod joined;
pub(crate) mod peeked_source;
pub(crate) mod reasons;
pub(crate) mod runs;
pub(crate) mod without;

use crate::aside::Asides;
use crate::command_fault::{CommandFault, load_fault};
use crate::join::held_files::HeldFiles;
use crate::join::inspecting::inspect_all;
use crate::join::join_counts::JoinCounts;
use crate::join::join_input::JoinInput;
use crate::nothing::Nothing;
use flute_parts::{Sender, Sink, Source};
use flute_store::Store;
use flute_streams::{
    Both, Chained, InputFault, MergedJournal, Objects, OwnedJournalStream, Streams, WalkStream,
    join_streams,
};
use std::alloc::Global;

/// Writes the journal of all that the inputs contain of these objects, each a journal or a
/// datagram file, as its first four bytes say. What they contain of other objects is passed over,
/// and counted: entries, and datagrams that are packets.
/// There may be up to 64 inputs; of none the journal is empty. A datagram that is refused contains
/// nothing, and is counted, for the first reason that applies. Any inputs with the same facts, in
/// any order, number and grouping, have the same journal, byte for byte.
///
/// First the datagram files are read, record by record, and their facts are held: up to
/// about `memory` bytes in memory, and the rest aside, as journals. Then the journals are read, and
/// the journal of all is written meanwhile: one entry of each is held. It may have more entries
/// than are read of an input.
///
/// # Errors
///
/// Inputs are numbered from 1. The first that is met:
///
/// - first, input by input: `UnknownKind` if it is neither; `Input` with the fault of a datagram
///   file, which may have at most 16,777,216 records, or with `Read` if its source fails;
/// - then, input by input: `Input` with the fault of a journal, which may have at most 16,777,216
///   entries, or with `Read` if its source fails;
/// - then `Full` if all of them together have more than `SESSIONS` sessions, `OBJECTS` objects of
///   one or `SYMBOLS` symbols of one;
/// - last, `CannotWrite` if the sink failed. The inputs are read to their ends all the same.
///
/// `OutOfMemory`, or `Input` with it, if a request for memory was refused; at `OutOfMemory` nothing
/// was written yet. `CannotPutAside` if something was to be put aside, and could not be, or not be
/// read again. What was written is no journal after any fault. The inputs were read in part, and
/// are of no further use.
pub fn join_to<
    const SESSIONS: u32,
    const OBJECTS: u32,
    const SYMBOLS: u32,
    R: Source + Drop,
    A: Asides<Input = R>,
    W: Sink,
>(
    alloc: Global,
    asides: &mut A,
    memory: u64,
    sender: Sender,
    objects: &Objects,
    inputs: &mut [JoinInput<R>],
    sink: &mut W,
) -> Result<JoinCounts, CommandFault>
    requires few { length inputs.old ≤ 64 }
    requires countable { IsCountable SESSIONS OBJECTS SYMBOLS }
    ensures joined { A.tells asides.old ≡ true
        → (contents : List (List ℕ)) → AreInputs R.unread inputs.old contents
        → IfOk result
        (λ counts. JoinsTo (choice_of (at_most SESSIONS OBJECTS SYMBOLS) sender objects.now)
        contents counts (W.written sink.old) (W.written sink.new)) }
    ensures failed { A.tells asides.old ≡ true
        → (contents : List (List ℕ)) → AreInputs R.unread inputs.old contents
        → IfErr result (JoinToFails
        (choice_of (at_most SESSIONS OBJECTS SYMBOLS) sender objects.now) contents) }
    ensures short { IfErr result
        (λ _. AppendsNoJournal (W.written sink.old) (W.written sink.new)) }
    ensures kept { IfErr result (λ fault. fault ≡ OutOfMemory → sink.new ≡ sink.old) }
    ensures names { IfErr result (NamesOneOf (length inputs.old)) }
    ensures none_failed { OnOk result (NoneFailed R.failures inputs.old inputs.new) }
    ensures read_failed { IfErr result (λ fault. (number : ℕ) → fault ≡ Input number Read
        → OneFailed R.failures number inputs.old inputs.new) }
    ensures sink_failures { OnOk result (W.failures sink.new ≡ W.failures sink.old) }
    ensures write_failed { IfErr result
        (λ fault. fault ≡ CannotWrite → W.failures sink.new ≡ W.failures sink.old + 1) }
    ensures made { Makes (A.made asides.old) (A.made asides.new) result }
{
    let mut held: HeldFiles<SESSIONS, OBJECTS, SYMBOLS, R> = inspect_all(
        alloc, asides, memory, sender, objects, inputs,
    )?;
    if !held.fits {
        // The fault of a journal comes before this.
        held.runs.clear();
        join_inspected(
            alloc,
            inputs,
            &held.told.store,
            &mut held.runs,
            &mut Nothing,
        )?;
        return Err(CommandFault::Full);
    }
    let joined = join_inspected(alloc, inputs, &held.told.store, &mut held.runs, sink)?;
    if !joined.within {
        return Err(CommandFault::Full);
    }
    if joined.cut {
        return Err(CommandFault::CannotWrite);
    }
    Ok(JoinCounts {
        datagrams: held.told.datagrams,
        refused: held.told.refused,
        reasons: held.reasons,
        others: others_of(held.others, inputs),
        entries: joined.entries,
    })
}

// How many entries and datagrams were of other objects.
fn others_of<R>(of_files: u64, inputs: &[JoinInput<R>]) -> u64
    ensures { result ≡ min (of_files + sum_by passed_over inputs.now) (2 ^ 64 - 1) }
{
    let mut others = of_files;
    for input in inputs {
        if let JoinInput::Journal(journal) = input {
            others = others.saturating_add(journal.others);
        }
    }
    others
}

// Joins the journals among inputs that were inspected, and what is held of the others: in a store,
// and in runs.
fn join_inspected<
    const SESSIONS: u32,
    const OBJECTS: u32,
    const SYMBOLS: u32,
    R: Source + Drop,
    W: Sink,
>(
    alloc: Global,
    inputs: &mut [JoinInput<R>],
    store: &Store<SESSIONS, OBJECTS, SYMBOLS>,
    runs: &mut Vec<OwnedJournalStream<R>>,
    sink: &mut W,
) -> Result<MergedJournal, CommandFault>
    requires few { length inputs.old ≤ 64 }
    requires countable { IsCountable SESSIONS OBJECTS SYMBOLS }
    requires ready { AllByRecursion (IsReady R.unread R.buffered R.failures) inputs.old }
    requires few_runs { length runs.old.items ≤ 63 }
    requires new { AllByRecursion (IsNewRun R.unread R.buffered R.failures) runs.old.items }
    ensures joined { (choice : Choice) (contents datagrams : List (List ℕ)) (held : List Fact)
        → choice.most ≡ at_most SESSIONS OBJECTS SYMBOLS
        → AreInspected R.unread R.buffered choice inputs.old contents datagrams
        → AreHeld R.unread R.buffered store.now runs.old.items held
        → IfOk result (λ joined. JoinsInspected choice contents datagrams held
        (sum_by passed_over inputs.new) joined (W.written sink.old) (W.written sink.new)) }
    ensures failed { (choice : Choice) (contents datagrams : List (List ℕ))
        → AreInspected R.unread R.buffered choice inputs.old contents datagrams
        → (length runs.old.items ≡ 0) ⊎ WantsAside contents
        → IfErr result (JoinToFails choice contents) }
    ensures cut { IfOk result (λ joined. joined.cut ≡ true
        → AppendsNoJournal (W.written sink.old) (W.written sink.new)) }
    ensures over { IfOk result (λ joined. joined.within ≡ false → joined.cut ≡ true) }
    ensures short { IfErr result
        (λ _. AppendsNoJournal (W.written sink.old) (W.written sink.new)) }
    ensures names { IfErr result (NamesOneOf (length inputs.old)) }
    ensures no_memory { IfErr result (λ fault. fault ≡ OutOfMemory → ⊥) }
    ensures no_sink { IfErr result (λ fault. fault ≡ CannotWrite → ⊥) }
    ensures no_aside { length runs.old.items ≡ 0
        → IfErr result (λ fault. fault ≡ CannotPutAside → ⊥) }
    ensures none_failed { OnOk result (NoneFailed R.failures inputs.old inputs.new) }
    ensures read_failed { IfErr result (λ fault. (number : ℕ) → fault ≡ Input number Read
        → OneFailed R.failures number inputs.old inputs.new) }
    ensures sink_failures { IfOk result (λ joined. joined.within ≡ true
        → W.failures sink.new ≡ W.failures sink.old + times_failed joined.cut) }
{
    let mut walk = WalkStream::new(store.walk());
    if runs.is_empty() {
        let mut held = &mut walk;
        return at_stop(join_held::<SESSIONS, OBJECTS, SYMBOLS, _, _, _>(
            alloc, &mut held, inputs, sink,
        ));
    }
    let mut held = Chained {
        first: &mut walk,
        others: &mut runs[..],
    };
    at_stop(join_held::<SESSIONS, OBJECTS, SYMBOLS, _, _, _>(alloc, &mut held, inputs, sink))
}

// The fault of a join that stopped at a stream: 0 is what is held, and the others are inputs.
fn at_stop(joined: Result<MergedJournal, InputFault>) -> Result<MergedJournal, CommandFault>
    ensures { MatchResult joined (λ journal. result ≡ Ok journal)
        (λ fault. result ≡ Err (of_stop fault.number fault.fault)) }
{
    match joined {
        Ok(joined) => Ok(joined),
        Err(fault) => Err(if fault.number == 0 {
            CommandFault::CannotPutAside
        } else {
            load_fault(fault.number, fault.fault)
        }),
    }
}

// Joins the streams of what is held, and the journals among inputs that were inspected. If it stops
// at one of them, its number is 0 if it is held, and else that of the input.
fn join_held<
    const SESSIONS: u32,
    const OBJECTS: u32,
    const SYMBOLS: u32,
    G: Streams,
    R: Source,
    W: Sink,
>(
    alloc: Global,
    held: &mut G,
    inputs: &mut [JoinInput<R>],
    sink: &mut W,
) -> Result<MergedJournal, InputFault>
    requires few { length inputs.old ≤ 64 }
    requires ready { AllByRecursion (IsReady R.unread R.buffered R.failures) inputs.old }
    requires held { AreNewlyHeld G.behaviour (G.streams held.old) }
    ensures joined { (choice : Choice) (contents datagrams : List (List ℕ)) (facts : List Fact)
        → choice.most ≡ at_most SESSIONS OBJECTS SYMBOLS
        → AreInspected R.unread R.buffered choice inputs.old contents datagrams
        → End G.behaviour (G.streams held.old) facts
        → IfOk result (λ joined. JoinsInspected choice contents datagrams facts
        (sum_by passed_over inputs.new) joined (W.written sink.old) (W.written sink.new)) }
    ensures stopped { IfErr result (λ fault. StopsJoin R.unread R.buffered R.failures
        G.behaviour (G.streams held.old) inputs.old inputs.new
        (of_stop fault.number fault.fault)) }
    ensures cut { IfOk result (λ joined. joined.cut ≡ true
        → AppendsNoJournal (W.written sink.old) (W.written sink.new)) }
    ensures over { IfOk result (λ joined. joined.within ≡ false → joined.cut ≡ true) }
    ensures short { IfErr result
        (λ _. AppendsNoJournal (W.written sink.old) (W.written sink.new)) }
    ensures none_failed { OnOk result (NoneFailed R.failures inputs.old inputs.new) }
    ensures sink_failures { IfOk result (λ joined. joined.within ≡ true
        → W.failures sink.new ≡ W.failures sink.old + times_failed joined.cut) }
{
    let of_held = held.count();
    let mut streams = Both {
        first: &mut *held,
        second: &mut *inputs,
    };
    match join_streams::<SESSIONS, OBJECTS, SYMBOLS, _, _>(alloc, &mut streams, sink) {
        Ok(joined) => Ok(joined),
        Err(fault) => Err(InputFault {
            number: (fault.number + 1).saturating_sub(of_held),
            fault: fault.fault,
        }),
    }
}
