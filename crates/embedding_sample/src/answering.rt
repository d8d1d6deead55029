//! An answer that fills gaps: what another lacks of a journal, by the lines of its `gaps`.
ghost use Rattle.std.specs.Prelude.{ℕ, List, Some, IfOk, IfErr, IfSome};
ghost use Rattle.flutejoin.specs.Fill.{FillFails};
ghost use Rattle.flutejoin.specs.OwnGaps.{IsAnswerTo, IsGaps};

use flute_parts::{MemorySink, MemorySource, Sink};
use flutejoin::{Asking, CommandFault, fill_input, fill_to};
use std::alloc::Global;

/// The journal of those entries of a journal that another lacks, who printed these lines by `gaps`
/// of its own.
///
/// # Errors
///
/// `Input` with the fault of the journal, `BadLine` with the number of the first line that `gaps`
/// does not print, `CannotWrite` if there was no memory.
pub fn answer(alloc: Global, journal: &[u8], lines: &[u8]) -> Result<MemorySink, CommandFault>
    ensures answer { IfOk result (λ answer. (asker : List ℕ) → IsGaps asker lines.now
        → IfSome (⟦<MemorySink as Sink>⟧.written answer) (IsAnswerTo asker journal.now)) }
    ensures failed { IfErr result (FillFails (Some journal.now) (Some lines.now)) }
{
    let mut answer = MemorySink::new(alloc);
    let mut input = fill_input(
        MemorySource::new(journal),
        MemorySource::new(lines),
        Asking::All,
    );
    fill_to(alloc, &mut input, &mut answer)?;
    Ok(answer)
}
