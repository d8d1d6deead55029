//! `flutejoin_c_compare`: the lines of how two journals in memory differ.
ghost use Rattle.std.specs.Prelude.{◌≡◌, ◌≢◌, IfOk, IfErr, Some, true};
ghost use Rattle.flute_parts.specs.declared.fact.Fact.{Fact};
ghost use Rattle.flute_streams.specs.Selections.{selects};
ghost use Rattle.flutejoin.specs.Merge.{MergeFails};
ghost use Rattle.flutejoin_c.specs.Gives.{Gives, TellsFault};
ghost use Rattle.flutejoin_c.specs.Lists.{Compares, form_for};

use crate::answer::Answer;
use crate::gaps::form_for;
use flute_parts::{MemorySink, MemorySource, Sink, Source};
use flute_streams::Selection;
use flutejoin::{CommandFault, CompareInput, CompareStyle, Form, compare_from, compare_input};
use flutejoin_replicas::MemoryAside;
use std::alloc::Global;

/// Gives the lines that the command `compare` prints of two journals, without options; if `json` is
/// not 0, those in JSON.
///
/// Returns 0, or the number of the fault: `Input` with the number of the journal, 1 or 2; or
/// `OutOfMemory`. `out` is as it was then.
#[unsafe(no_mangle)]
pub extern "C" fn flutejoin_c_compare(
    alloc: Global,
    first: &[u8],
    second: &[u8],
    json: u32,
    out: &mut [u8],
    answer: &mut Answer,
) -> u32
    ensures compared { result ≡ 0 → Gives (Compares (form_for json) first.now second.now)
        out.old out.new answer.new.needed }
    ensures failed { result ≢ 0
        → TellsFault (MergeFails (Some first.now) (Some second.now)) result answer.new.number }
    ensures kept { result ≢ 0 → out.new ≡ out.old }
    ensures code { answer.new.code ≡ result }
{
    let mut held = MemorySink::new(alloc);
    match compare(alloc, first, second, form_for(json), &mut held) {
        Ok(_same) => answer.give(held.as_slice(), out),
        Err(fault) => answer.refuse(fault),
    }
}

// Writes the lines of all objects.
fn compare(
    alloc: Global,
    first: &[u8],
    second: &[u8],
    form: Form,
    sink: &mut MemorySink,
) -> Result<bool, CommandFault>
    ensures compared { IfOk result (λ _. Compares form first.now second.now
        (⟦<MemorySink as Sink>⟧.written sink.old)
        (⟦<MemorySink as Sink>⟧.written sink.new)) }
    ensures failed { IfErr result (MergeFails (Some first.now) (Some second.now)) }
{
    let mut input = whole(first);
    let mut other = whole(second);
    let style = CompareStyle {
        check: false,
        summary: false,
        form,
    };
    let mut lines = MemoryAside::new(alloc);
    compare_from(alloc, &mut input, &mut other, style, &mut lines, sink)
}

// All of a journal.
fn whole<'a>(journal: &'a [u8]) -> CompareInput<MemorySource<'a>>
    ensures bytes { ⟦<MemorySource<'a> as Source>⟧.unread result.stream.source
        ≡ Some journal.now }
    ensures all { (fact : Fact) → selects result.choice fact ≡ true }
{
    compare_input(MemorySource::new(journal), Selection::all())
}
