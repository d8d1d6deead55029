//! `flutejoin_c_join`: joins one or two inputs in memory.
ghost use Rattle.std.specs.Prelude.{◌≡◌, ◌≢◌, ◌≤◌, List, ℕ, length, IfOk, IfErr, IfSome, Some};
ghost use Rattle.flutejoin.specs.JoinFaults.{JoinToFails};
ghost use Rattle.flutejoin.specs.JoinInputs.{AreInputs, IsInput};
ghost use Rattle.flutejoin.specs.Joining.{JoinsTo};
ghost use Rattle.flutejoin.specs.Limits.{IsCountable, at_most};
ghost use Rattle.flutejoin.specs.declared.command_fault.CommandFault.TheVariants.{OutOfMemory};
ghost use Rattle.flutejoin_c.specs.Gives.{Gives, TellsFault};
ghost use Rattle.flutejoin_c.specs.Joins.{JoinCallFails, NotJoined, Joins, all_of, choice_in};
ghost use Rattle.flutejoin_c.specs.Joins.{inputs_of};

use crate::answer::Answer;
use crate::wide::Wide;
use flute_parts::{MemorySink, MemorySource, Sender, Sink, Source};
use flute_streams::{Objects, Scope};
use flutejoin::{
    ANY_OBJECTS, ANY_SESSIONS, ANY_SYMBOLS, CommandFault, JoinCounts, JoinInput, MAX_ENTRIES,
    MAX_OBJECTS, MAX_SESSIONS, MAX_SYMBOLS, join_to,
};
use flutejoin_replicas::NoAsides;
use std::alloc::Global;

/// How inputs are joined.
#[repr(C)]
#[derive(Clone, Copy)]
pub struct OptionFields {
    /// The address, as a number, of the sender of the datagrams.
    pub sender: Wide,
    /// If it is not 0, the sessions, objects and symbols may be as many as with `--any-size`.
    pub any_size: u32,
}

/// What was joined, in numbers.
#[repr(C)]
#[derive(Clone, Copy)]
pub struct CountFields {
    /// How many datagrams the datagram files have.
    pub datagrams: u64,
    /// How many of these are refused. They contain nothing.
    pub refused: u64,
    /// How many entries the journal has.
    pub entries: u64,
}

/// Gives the journal of all that two inputs contain, each a journal or a datagram file, as the
/// command `join` writes it. If the first has no bytes, the second is the only input.
///
/// Returns 0, or the number of the fault: `UnknownKind` or `Input` with the number of the input;
/// `Full`; or `OutOfMemory`. `out` and `counts` are as they were then.
#[unsafe(no_mangle)]
pub extern "C" fn flutejoin_c_join(
    alloc: Global,
    first: &[u8],
    second: &[u8],
    options: &OptionFields,
    counts: &mut CountFields,
    out: &mut [u8],
    answer: &mut Answer,
) -> u32
    ensures joined { result ≡ 0
        → Gives (Joins (choice_in options.now) (inputs_of first.now second.now) counts.new)
        out.old out.new answer.new.needed }
    ensures failed { result ≢ 0
        → TellsFault (JoinCallFails (choice_in options.now) (inputs_of first.now second.now))
        result answer.new.number }
    ensures kept { result ≢ 0 → out.new ≡ out.old }
    ensures uncounted { result ≢ 0 → counts.new ≡ counts.old }
    ensures code { answer.new.code ≡ result }
{
    let mut held = MemorySink::new(alloc);
    match join(alloc, first, second, options, &mut held) {
        Ok(joined) => {
            *counts = joined;
            answer.give(held.as_slice(), out)
        }
        Err(fault) => answer.refuse(fault),
    }
}

// Writes the journal of both, by these options, if the commands read it.
fn join(
    alloc: Global,
    first: &[u8],
    second: &[u8],
    options: &OptionFields,
    sink: &mut MemorySink,
) -> Result<CountFields, CommandFault>
    ensures joined { IfOk result (λ counts. Joins (choice_in options.now)
        (inputs_of first.now second.now) counts
        (⟦<MemorySink as Sink>⟧.written sink.old)
        (⟦<MemorySink as Sink>⟧.written sink.new)) }
    ensures failed { IfErr result
        (JoinCallFails (choice_in options.now) (inputs_of first.now second.now)) }
{
    let joined = join_by(alloc, first, second, options, sink)?;
    if joined.entries > MAX_ENTRIES {
        return Err(CommandFault::Full);
    }
    Ok(CountFields {
        datagrams: joined.datagrams,
        refused: joined.refused,
        entries: joined.entries,
    })
}

// Writes the journal of both, by these options.
fn join_by(
    alloc: Global,
    first: &[u8],
    second: &[u8],
    options: &OptionFields,
    sink: &mut MemorySink,
) -> Result<JoinCounts, CommandFault>
    ensures joined { IfOk result (λ counts. JoinsTo (choice_in options.now)
        (inputs_of first.now second.now) counts
        (⟦<MemorySink as Sink>⟧.written sink.old)
        (⟦<MemorySink as Sink>⟧.written sink.new)) }
    ensures failed { IfErr result
        (NotJoined (choice_in options.now) (inputs_of first.now second.now)) }
{
    let sender = Sender::new(options.sender.number());
    if options.any_size == 0 {
        join_within::<MAX_SESSIONS, MAX_OBJECTS, MAX_SYMBOLS>(alloc, first, second, sender, sink)
    } else {
        join_within::<ANY_SESSIONS, ANY_OBJECTS, ANY_SYMBOLS>(alloc, first, second, sender, sink)
    }
}

// Writes the journal of both, or of the second alone, within these limits.
fn join_within<const SESSIONS: u32, const OBJECTS: u32, const SYMBOLS: u32>(
    alloc: Global,
    first: &[u8],
    second: &[u8],
    sender: Sender,
    sink: &mut MemorySink,
) -> Result<JoinCounts, CommandFault>
    requires countable { IsCountable SESSIONS OBJECTS SYMBOLS }
    ensures joined { IfOk result (λ counts. JoinsTo
        (all_of (at_most SESSIONS OBJECTS SYMBOLS) sender) (inputs_of first.now second.now)
        counts (⟦<MemorySink as Sink>⟧.written sink.old)
        (⟦<MemorySink as Sink>⟧.written sink.new)) }
    ensures failed { IfErr result (NotJoined
        (all_of (at_most SESSIONS OBJECTS SYMBOLS) sender) (inputs_of first.now second.now)) }
{
    let other = opened(second)?;
    if first.is_empty() {
        let mut inputs = [other];
        join_all::<SESSIONS, OBJECTS, SYMBOLS>(alloc, sender, &mut inputs[..], sink)
    } else {
        let mut inputs = [opened(first)?, other];
        join_all::<SESSIONS, OBJECTS, SYMBOLS>(alloc, sender, &mut inputs[..], sink)
    }
}

// An input of these bytes.
fn opened<'a>(bytes: &'a [u8]) -> Result<JoinInput<MemorySource<'a>>, CommandFault>
    ensures input { IfOk result
        (λ input. IsInput ⟦<MemorySource<'a> as Source>⟧.unread input bytes.now) }
    ensures fault { IfErr result (λ fault. fault ≡ OutOfMemory) }
{
    match JoinInput::open(MemorySource::new(bytes)) {
        Ok(input) => Ok(input),
        // a source in memory does not fail
        Err(_) => Err(CommandFault::OutOfMemory),
    }
}

// Writes the journal of all inputs within these limits.
fn join_all<'a, const SESSIONS: u32, const OBJECTS: u32, const SYMBOLS: u32>(
    alloc: Global,
    sender: Sender,
    inputs: &mut [JoinInput<MemorySource<'a>>],
    sink: &mut MemorySink,
) -> Result<JoinCounts, CommandFault>
    requires few { length inputs.old ≤ 64 }
    requires countable { IsCountable SESSIONS OBJECTS SYMBOLS }
    ensures joined { (contents : List (List ℕ))
        → AreInputs ⟦<MemorySource<'a> as Source>⟧.unread inputs.old contents
        → IfOk result (λ counts. JoinsTo (all_of (at_most SESSIONS OBJECTS SYMBOLS) sender)
        contents counts (⟦<MemorySink as Sink>⟧.written sink.old)
        (⟦<MemorySink as Sink>⟧.written sink.new)) }
    ensures failed { (contents : List (List ℕ))
        → AreInputs ⟦<MemorySource<'a> as Source>⟧.unread inputs.old contents
        → IfErr result (JoinToFails (all_of (at_most SESSIONS OBJECTS SYMBOLS) sender)
        contents) }
{
    let all = Objects {
        scope: Scope::all(),
        without: None,
    };
    let mut asides = NoAsides::new();
    join_to::<SESSIONS, OBJECTS, SYMBOLS, _, _, _>(
        alloc,
        &mut asides,
        u64::MAX,
        sender,
        &all,
        inputs,
        sink,
    )
}
