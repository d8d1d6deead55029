//! A join of two receptions: the journal of all that either has.
ghost use Rattle.std.specs.Prelude.{◌≡◌, Some, IfOk, IfErr};
ghost use Rattle.flute_streams.specs.Merges.{NamesFault};
ghost use Rattle.embedding_sample.specs.Both.{IsOfBoth};

use flute_parts::{MemorySink, MemorySource, Sink};
use flute_streams::{MergeFault, merge_streams};
use std::alloc::Global;

/// How many entries a journal may have here.
const MANY: u64 = 16_777_216;

/// The journal of all that two receptions contain, each of which is a journal in memory. Which is
/// the first makes no difference to it.
///
/// # Errors
///
/// `First` and `Second` with the fault of that journal; `Write` if there was no memory.
pub fn journal_of_both(alloc: Global, first: &[u8], second: &[u8]) -> Result<MemorySink, MergeFault>
    ensures joined { IfOk result (λ joined.
        IsOfBoth MANY first.now second.now (⟦<MemorySink as Sink>⟧.written joined)) }
    ensures failed { IfErr result (NamesFault MANY (Some first.now) (Some second.now)) }
{
    let mut joined = MemorySink::new(alloc);
    let mut first = MemorySource::new(first);
    let mut second = MemorySource::new(second);
    merge_streams(alloc, &mut first, &mut second, &mut joined, MANY)?;
    Ok(joined)
}
