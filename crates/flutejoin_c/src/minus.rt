//! `flutejoin_c_minus`: what of a journal in memory a join would change another by.
ghost use Rattle.std.specs.Prelude.{◌≡◌, ◌≢◌, IfOk, IfErr, Some};
ghost use Rattle.flutejoin.specs.Merge.{MergeFails};
ghost use Rattle.flutejoin_c.specs.Calls.{Subtracts};
ghost use Rattle.flutejoin_c.specs.Gives.{Gives, TellsFault};

use crate::answer::Answer;
use flute_parts::{MemorySink, MemorySource, Sink};
use flutejoin::{CommandFault, minus_input, minus_to};
use std::alloc::Global;

/// Gives the journal of those entries of the first journal by which a join would change the second,
/// as the command `minus` writes it.
///
/// Returns 0, or the number of the fault: `Input` with the number of the journal, 1 or 2; or
/// `OutOfMemory`. `out` is as it was then.
#[unsafe(no_mangle)]
pub extern "C" fn flutejoin_c_minus(
    alloc: Global,
    first: &[u8],
    second: &[u8],
    out: &mut [u8],
    answer: &mut Answer,
) -> u32
    ensures subtracted { result ≡ 0
        → Gives (Subtracts first.now second.now) out.old out.new answer.new.needed }
    ensures failed { result ≢ 0
        → TellsFault (MergeFails (Some first.now) (Some second.now)) result answer.new.number }
    ensures kept { result ≢ 0 → out.new ≡ out.old }
    ensures code { answer.new.code ≡ result }
{
    let mut held = MemorySink::new(alloc);
    match subtract(alloc, first, second, &mut held) {
        Ok(_entries) => answer.give(held.as_slice(), out),
        Err(fault) => answer.refuse(fault),
    }
}

// Writes the journal of what the first has beyond the second.
fn subtract(
    alloc: Global,
    first: &[u8],
    second: &[u8],
    sink: &mut MemorySink,
) -> Result<u64, CommandFault>
    ensures subtracted { IfOk result (λ _. Subtracts first.now second.now
        (⟦<MemorySink as Sink>⟧.written sink.old)
        (⟦<MemorySink as Sink>⟧.written sink.new)) }
    ensures failed { IfErr result (MergeFails (Some first.now) (Some second.now)) }
{
    let mut input = minus_input(MemorySource::new(first), MemorySource::new(second));
    minus_to(alloc, &mut input, sink)
}
