//! `flutejoin_c_gaps`: the lines of what is missing in a journal in memory.
ghost use Rattle.std.specs.Prelude.{◌≡◌, ◌≢◌, IfOk, IfErr};
ghost use Rattle.flutejoin.specs.Limits.{at_most};
ghost use Rattle.flutejoin_c.specs.Calls.{most_for};
ghost use Rattle.flutejoin_c.specs.Gives.{Gives, TellsFault};
ghost use Rattle.flutejoin_c.specs.Lists.{Lists, ListFails, form_for, style_in};

use crate::answer::Answer;
use flute_parts::{MemorySink, MemorySource, Sink};
use flute_streams::Selection;
use flutejoin::{
    ANY_OBJECTS, ANY_SESSIONS, ANY_SYMBOLS, CommandFault, Form, MAX_OBJECTS, MAX_SESSIONS,
    MAX_SYMBOLS, Style, gaps_from,
};
use flutejoin_replicas::MemoryAside;
use std::alloc::Global;

/// Gives the lines that the command `gaps` prints of a journal, without options; if `json` is not
/// 0, those in JSON.
///
/// Returns 0, or the number of the fault: `Input`, `Full` or `OutOfMemory`. `out` is as it was
/// then.
#[unsafe(no_mangle)]
pub extern "C" fn flutejoin_c_gaps(
    alloc: Global,
    journal: &[u8],
    any_size: u32,
    json: u32,
    out: &mut [u8],
    answer: &mut Answer,
) -> u32
    ensures listed { result ≡ 0
        → Gives (Lists (most_for any_size) (style_in (form_for json)) journal.now)
        out.old out.new answer.new.needed }
    ensures failed { result ≢ 0 → TellsFault (ListFails (most_for any_size) journal.now)
        result answer.new.number }
    ensures kept { result ≢ 0 → out.new ≡ out.old }
    ensures code { answer.new.code ≡ result }
{
    let mut held = MemorySink::new(alloc);
    match list(alloc, journal, any_size, form_for(json), &mut held) {
        Ok(_all_whole) => answer.give(held.as_slice(), out),
        Err(fault) => answer.refuse(fault),
    }
}

// Writes the lines of all objects, within the limits that are chosen.
fn list(
    alloc: Global,
    journal: &[u8],
    any_size: u32,
    form: Form,
    sink: &mut MemorySink,
) -> Result<bool, CommandFault>
    ensures listed { IfOk result (λ _. Lists (most_for any_size) (style_in form) journal.now
        (⟦<MemorySink as Sink>⟧.written sink.old)
        (⟦<MemorySink as Sink>⟧.written sink.new)) }
    ensures failed { IfErr result (ListFails (most_for any_size) journal.now) }
{
    if any_size == 0 {
        list_within::<MAX_SESSIONS, MAX_OBJECTS, MAX_SYMBOLS>(alloc, journal, form, sink)
    } else {
        list_within::<ANY_SESSIONS, ANY_OBJECTS, ANY_SYMBOLS>(alloc, journal, form, sink)
    }
}

// Writes the lines of all objects, within these limits.
fn list_within<const SESSIONS: u32, const OBJECTS: u32, const SYMBOLS: u32>(
    alloc: Global,
    journal: &[u8],
    form: Form,
    sink: &mut MemorySink,
) -> Result<bool, CommandFault>
    ensures listed { IfOk result (λ _. Lists (at_most SESSIONS OBJECTS SYMBOLS)
        (style_in form) journal.now
        (⟦<MemorySink as Sink>⟧.written sink.old)
        (⟦<MemorySink as Sink>⟧.written sink.new)) }
    ensures failed { IfErr result (ListFails (at_most SESSIONS OBJECTS SYMBOLS) journal.now) }
{
    let mut source = MemorySource::new(journal);
    let mut lines = MemoryAside::new(alloc);
    let mut gap_lines = MemoryAside::new(alloc);
    gaps_from::<SESSIONS, OBJECTS, SYMBOLS, _, _, _, _>(
        alloc,
        &mut source,
        &Selection::all(),
        style_in(form),
        &mut lines,
        &mut gap_lines,
        sink,
    )
}

// All lines, in this form.
fn style_in(form: Form) -> Style
    ensures { result ≡ style_in form }
{
    Style {
        check: false,
        summary: false,
        conflicts: false,
        ranges: false,
        form,
    }
}

/// JSON, if this is not 0.
pub fn form_for(json: u32) -> Form
    ensures { result ≡ form_for json }
{
    if json == 0 { Form::Plain } else { Form::Json }
}
