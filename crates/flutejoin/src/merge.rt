//! The command `merge`: two journals, merged as streams.
ghost use Rattle.std.specs.Prelude.{◌≡◌, ◌+◌, IfOk, IfErr, OnErr};
ghost use Rattle.flute_streams.specs.Merges.{Merged, StopsShort};
ghost use Rattle.flutejoin.specs.Merge.{MergeFails, FirstInputFails, SecondInputFails};
ghost use Rattle.flutejoin.specs.declared.limits.TheConstants.{MAX_ENTRIES};
ghost use Rattle.flutejoin.specs.Packet.{write_failures};

use crate::command_fault::CommandFault;
use crate::limits::MAX_ENTRIES;
use flute_parts::{Sink, Source};
use flute_streams::{MergeFault, merge_streams};
use std::alloc::Global;

/// Writes the journal of all that two journals contain, of at most 16,777,216 entries each, and
/// returns the number of its entries, which may be more. It holds one entry of each.
///
/// # Errors
///
/// `Input` with the number of the journal, 1 or 2, and its fault; `CannotWrite` if the sink
/// failed. What was written is then no journal.
pub fn merge_to<A: Source, B: Source, W: Sink>(
    alloc: Global,
    first: &mut A,
    second: &mut B,
    sink: &mut W,
) -> Result<u64, CommandFault>
    ensures merged { IfOk result (λ n. Merged MAX_ENTRIES n
        (A.unread first.old) (B.unread second.old) (W.written sink.old) (W.written sink.new)) }
    ensures short { OnErr result (StopsShort (A.unread first.old) (B.unread second.old)
        (W.written sink.old) (W.written sink.new)) }
    ensures failed { IfErr result (MergeFails (A.unread first.old) (B.unread second.old)) }
    ensures first_failures { FirstInputFails (A.failures first.old) (A.failures first.new) result }
    ensures second_failures { SecondInputFails
        (B.failures second.old) (B.failures second.new) result }
    ensures failures { W.failures sink.new ≡ W.failures sink.old + write_failures result }
{
    match merge_streams(alloc, first, second, sink, MAX_ENTRIES) {
        Ok(entries) => Ok(entries),
        Err(MergeFault::First(fault)) => Err(CommandFault::Input(1, fault)),
        Err(MergeFault::Second(fault)) => Err(CommandFault::Input(2, fault)),
        Err(MergeFault::Write) => Err(CommandFault::CannotWrite),
    }
}
