//! `flutejoin_c_fill`: what lines of `gaps` in memory ask for of a journal in memory.
ghost use Rattle.std.specs.Prelude.{◌≡◌, ◌≢◌, IfOk, IfErr, Some};
ghost use Rattle.flutejoin.specs.Fill.{FillFails};
ghost use Rattle.flutejoin_c.specs.Calls.{Fills, asking_for};
ghost use Rattle.flutejoin_c.specs.Gives.{Gives, TellsFault};

use crate::answer::Answer;
use flute_parts::{MemorySink, MemorySource, Sink};
use flutejoin::{Asking, CommandFault, fill_input, fill_to};
use std::alloc::Global;

/// Gives the journal of those entries of a journal that the lines ask for, as the command `fill`
/// writes it; if `only` is not 0, of those that they name as missing.
///
/// Returns 0, or the number of the fault: `Input` with that of the journal, `BadLine`, or
/// `OutOfMemory`. `out` is as it was then.
#[unsafe(no_mangle)]
pub extern "C" fn flutejoin_c_fill(
    alloc: Global,
    journal: &[u8],
    lines: &[u8],
    only: u32,
    out: &mut [u8],
    answer: &mut Answer,
) -> u32
    ensures filled { result ≡ 0 → Gives (Fills (asking_for only) journal.now lines.now)
        out.old out.new answer.new.needed }
    ensures failed { result ≢ 0
        → TellsFault (FillFails (Some journal.now) (Some lines.now)) result answer.new.number }
    ensures kept { result ≢ 0 → out.new ≡ out.old }
    ensures code { answer.new.code ≡ result }
{
    let mut held = MemorySink::new(alloc);
    match fill(alloc, journal, lines, asking_for(only), &mut held) {
        Ok(_entries) => answer.give(held.as_slice(), out),
        Err(fault) => answer.refuse(fault),
    }
}

// Writes the journal of what is asked for.
fn fill(
    alloc: Global,
    journal: &[u8],
    lines: &[u8],
    asking: Asking,
    sink: &mut MemorySink,
) -> Result<u64, CommandFault>
    ensures filled { IfOk result (λ _. Fills asking journal.now lines.now
        (⟦<MemorySink as Sink>⟧.written sink.old)
        (⟦<MemorySink as Sink>⟧.written sink.new)) }
    ensures failed { IfErr result (FillFails (Some journal.now) (Some lines.now)) }
{
    let mut input = fill_input(MemorySource::new(journal), MemorySource::new(lines), asking);
    fill_to(alloc, &mut input, sink)
}

// How much is asked for: only what is named, if this is not 0.
fn asking_for(only: u32) -> Asking
    ensures { result ≡ asking_for only }
{
    if only == 0 { Asking::All } else { Asking::Only }
}
