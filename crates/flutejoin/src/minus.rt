//! The command `minus`: what of a journal a join would change another by.
ghost use Rattle.std.specs.Prelude.{◌≡◌, ◌+◌, IfOk, IfErr};
ghost use Rattle.flutejoin.specs.Merge.{MergeFails, FirstInputFails, SecondInputFails};
ghost use Rattle.flutejoin.specs.Minus.{WritesMinus, WritesMinusPart};
ghost use Rattle.flutejoin.specs.Packet.{write_failures};
ghost use Rattle.flutejoin.specs.declared.limits.TheConstants.{MAX_ENTRIES};

use crate::command_fault::{CommandFault, load_fault};
use crate::limits::MAX_ENTRIES;
use flute_parts::{Sink, Source};
use flute_streams::{Minus, OwnedJournalStream, StreamsFault, write_stream};
use std::alloc::Global;

/// Two journals, of which what the first has beyond the second is to be written.
pub type MinusInput<A, B> = Minus<OwnedJournalStream<A>, OwnedJournalStream<B>>;

/// The journals that two sources have left. Nothing of them is read yet.
pub fn minus_input<A: Source, B: Source>(first: A, second: B) -> MinusInput<A, B>
    ensures first { result.first.source ≡ first }
    ensures second { result.second.source ≡ second }
{
    Minus::new(
        OwnedJournalStream::new(first, MAX_ENTRIES),
        OwnedJournalStream::new(second, MAX_ENTRIES),
    )
}

/// Writes the journal of those entries of the first journal by which a join would change the
/// second: it has none there, or one other value. Returns the number of these entries. The journals
/// are what the sources of the input have left, of at most 16,777,216 entries each; both are read
/// to their ends, and one entry of each is held.
///
/// # Errors
///
/// `Input` with the number of the journal, 1 or 2, and its fault; `CannotWrite` if the sink
/// failed. What was written is then no journal.
pub fn minus_to<A: Source, B: Source, W: Sink>(
    alloc: Global,
    input: &mut MinusInput<A, B>,
    sink: &mut W,
) -> Result<u64, CommandFault>
    ensures written { IfOk result (λ n. WritesMinus (A.unread input.old.first.source)
        (B.unread input.old.second.source) n (W.written sink.old) (W.written sink.new)) }
    ensures short { IfErr result (λ _. WritesMinusPart (A.unread input.old.first.source)
        (B.unread input.old.second.source) (W.written sink.old) (W.written sink.new)) }
    ensures failed { IfErr result (MergeFails (A.unread input.old.first.source)
        (B.unread input.old.second.source)) }
    ensures first_failures { FirstInputFails (A.failures input.old.first.source)
        (A.failures input.new.first.source) result }
    ensures second_failures { SecondInputFails (B.failures input.old.second.source)
        (B.failures input.new.second.source) result }
    ensures failures { W.failures sink.new ≡ W.failures sink.old + write_failures result }
{
    input.first.restart(MAX_ENTRIES);
    input.second.restart(MAX_ENTRIES);
    input.restart();
    match write_stream(alloc, input, sink) {
        Ok(entries) => Ok(entries),
        Err(StreamsFault::Input(fault)) => {
            let number = if input.in_second { 2 } else { 1 };
            Err(load_fault(number, fault.fault))
        }
        Err(StreamsFault::Write) => Err(CommandFault::CannotWrite),
    }
}
