//! `flutejoin_c_extract`: the bytes of an object that a journal in memory makes whole.
ghost use Rattle.std.specs.Prelude.{◌≡◌, ◌≢◌, IfOk, IfErr};
ghost use Rattle.flutejoin.specs.Limits.{at_most};
ghost use Rattle.flutejoin_c.specs.Calls.{most_for};
ghost use Rattle.flutejoin_c.specs.Gives.{Gives, TellsFault};
ghost use Rattle.flutejoin_c.specs.Objects.{Extracts, ExtractFails, OfObject, OfObjectFails};

use crate::answer::Answer;
use crate::object::ObjectFields;
use flute_parts::{Key, MemorySink, MemorySource, Sink};
use flutejoin::{
    ANY_OBJECTS, ANY_SESSIONS, ANY_SYMBOLS, CommandFault, MAX_OBJECTS, MAX_SESSIONS, MAX_SYMBOLS,
    extract_to,
};
use std::alloc::Global;

/// Gives the bytes of an object that a journal makes whole, as the command `extract` writes them.
///
/// Returns 0, or the number of the fault: `BadKey` if no object has this name; `Input` or `Full`;
/// `NoObject`, `NoInformation`, `ConflictingInformation`, or `NotWhole` with the first symbol that
/// is wanted; or `OutOfMemory`. `out` is as it was then.
#[unsafe(no_mangle)]
pub extern "C" fn flutejoin_c_extract(
    alloc: Global,
    journal: &[u8],
    object: &ObjectFields,
    any_size: u32,
    out: &mut [u8],
    answer: &mut Answer,
) -> u32
    ensures extracted { result ≡ 0
        → Gives (OfObject object.now (Extracts (most_for any_size) journal.now))
        out.old out.new answer.new.needed }
    ensures failed { result ≢ 0
        → TellsFault (OfObjectFails object.now (ExtractFails (most_for any_size) journal.now))
        result answer.new.number }
    ensures kept { result ≢ 0 → out.new ≡ out.old }
    ensures code { answer.new.code ≡ result }
{
    let Some(key) = object.key() else {
        return answer.refuse(CommandFault::BadKey);
    };
    let mut held = MemorySink::new(alloc);
    match extract(alloc, journal, &key, any_size, &mut held) {
        Ok(_bytes) => answer.give(held.as_slice(), out),
        Err(fault) => answer.refuse(fault),
    }
}

// Writes the object, if the journal is within the limits that are chosen.
fn extract(
    alloc: Global,
    journal: &[u8],
    key: &Key,
    any_size: u32,
    sink: &mut MemorySink,
) -> Result<u64, CommandFault>
    ensures extracted { IfOk result (λ _. Extracts (most_for any_size) journal.now key.now
        (⟦<MemorySink as Sink>⟧.written sink.old)
        (⟦<MemorySink as Sink>⟧.written sink.new)) }
    ensures failed { IfErr result (ExtractFails (most_for any_size) journal.now key.now) }
{
    if any_size == 0 {
        extract_within::<MAX_SESSIONS, MAX_OBJECTS, MAX_SYMBOLS>(alloc, journal, key, sink)
    } else {
        extract_within::<ANY_SESSIONS, ANY_OBJECTS, ANY_SYMBOLS>(alloc, journal, key, sink)
    }
}

// Writes the object, if the journal is within these limits.
fn extract_within<const SESSIONS: u32, const OBJECTS: u32, const SYMBOLS: u32>(
    alloc: Global,
    journal: &[u8],
    key: &Key,
    sink: &mut MemorySink,
) -> Result<u64, CommandFault>
    ensures extracted { IfOk result (λ _. Extracts (at_most SESSIONS OBJECTS SYMBOLS)
        journal.now key.now
        (⟦<MemorySink as Sink>⟧.written sink.old)
        (⟦<MemorySink as Sink>⟧.written sink.new)) }
    ensures failed { IfErr result (ExtractFails (at_most SESSIONS OBJECTS SYMBOLS)
        journal.now key.now) }
{
    let mut source = MemorySource::new(journal);
    extract_to::<SESSIONS, OBJECTS, SYMBOLS, _, _>(alloc, &mut source, key, sink)
}
