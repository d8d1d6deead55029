//! `flutejoin_c_merge`: merges two journals in memory.
ghost use Rattle.std.specs.Prelude.{◌≡◌, ◌≢◌, IfOk, IfErr};
ghost use Rattle.flutejoin_c.specs.Calls.{Merges, MergeCallFails};
ghost use Rattle.flutejoin_c.specs.Gives.{Gives, TellsFault};

use crate::answer::Answer;
use flute_parts::{MemorySink, MemorySource, Sink};
use flutejoin::{CommandFault, MAX_ENTRIES, merge_to};
use std::alloc::Global;

/// Gives the journal of all that two journals contain, as the command `merge` writes it.
///
/// Returns 0, or the number of the fault: `Input` with the number of the journal, 1 or 2; `Full` if
/// the journal of both has more than 16,777,216 entries; or `OutOfMemory`. `out` is as it was then.
#[unsafe(no_mangle)]
pub extern "C" fn flutejoin_c_merge(
    alloc: Global,
    first: &[u8],
    second: &[u8],
    out: &mut [u8],
    answer: &mut Answer,
) -> u32
    ensures merged { result ≡ 0
        → Gives (Merges first.now second.now) out.old out.new answer.new.needed }
    ensures failed { result ≢ 0
        → TellsFault (MergeCallFails first.now second.now) result answer.new.number }
    ensures kept { result ≢ 0 → out.new ≡ out.old }
    ensures code { answer.new.code ≡ result }
{
    let mut held = MemorySink::new(alloc);
    match merge(alloc, first, second, &mut held) {
        Ok(_entries) => answer.give(held.as_slice(), out),
        Err(fault) => answer.refuse(fault),
    }
}

// Writes the journal of both, if the commands read it.
fn merge(
    alloc: Global,
    first: &[u8],
    second: &[u8],
    sink: &mut MemorySink,
) -> Result<u64, CommandFault>
    ensures merged { IfOk result (λ _. Merges first.now second.now
        (⟦<MemorySink as Sink>⟧.written sink.old)
        (⟦<MemorySink as Sink>⟧.written sink.new)) }
    ensures failed { IfErr result (MergeCallFails first.now second.now) }
{
    let mut first = MemorySource::new(first);
    let mut second = MemorySource::new(second);
    let entries = merge_to(alloc, &mut first, &mut second, sink)?;
    if entries > MAX_ENTRIES {
        return Err(CommandFault::Full);
    }
    Ok(entries)
}
