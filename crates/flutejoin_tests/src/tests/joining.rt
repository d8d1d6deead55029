//! What inputs give when joined, in memory and as they are read.

use super::*;
use flute_parts::{MemorySink, MemorySource};
use flute_streams::{Objects, Scope};
use flute_wire::Refusal;
use flutejoin::{
    JoinCounts, JoinInput, MAX_INPUTS, MAX_OBJECTS, MAX_SESSIONS, MAX_SYMBOLS, Reasons, Report,
    join_to,
};
use flutejoin_replicas::{Blob, NoAsides, join_inputs};
use std::alloc::Global;
use test_vectors::{bytes, journals};

#[test]
fn inputs_in_memory_are_joined(rt: HostRuntime) -> Result<(), Fail> {
    let file = bytes(rt.alloc(), journals::DATAGRAMS)?;
    let inputs = [Blob::read(rt.alloc(), &mut MemorySource::new(&file))?];
    let joined = join_inputs(rt.alloc(), Sender::new(0), &inputs)?;
    assert!(rt; joined.datagrams == 2);
    Ok(())
}

#[test]
fn inputs_that_are_read_are_joined(rt: HostRuntime) -> Result<(), Fail> {
    let file = bytes(rt.alloc(), journals::DATAGRAMS)?;
    let mut sink = MemorySink::new(rt.alloc());
    let counts = join_file(rt.alloc(), file.as_slice(), &mut sink)?;
    assert!(rt; counts.datagrams == 2);
    Ok(())
}

#[test]
fn refused_datagrams_are_counted_for_their_reason(rt: HostRuntime) -> Result<(), Fail> {
    let mut reasons = Reasons::new();
    reasons.add(Refusal::Codepoint);
    assert!(rt; reasons.count(Refusal::Codepoint) == 1);
    assert!(rt; reasons.count(Refusal::NoToi) == 0);
    let mut report = Report::new();
    report.push_count("refused", 1);
    report.push_reasons(&reasons);
    assert!(rt; report.as_slice() == b"refused 1\nrefused 1: 8 Codepoint\n".as_slice());
    Ok(())
}

// Joins one input alone.
fn join_file(alloc: Global, file: &[u8], sink: &mut MemorySink) -> Result<JoinCounts, Fail> {
    let mut inputs = Vec::new(alloc);
    inputs.push(JoinInput::open(MemorySource::new(file))?)?;
    if inputs.len() > MAX_INPUTS {
        return Err(Fail::from("too many inputs"));
    }
    let counts = join_to::<MAX_SESSIONS, MAX_OBJECTS, MAX_SYMBOLS, _, _, _>(
        alloc,
        &mut NoAsides::new(),
        u64::MAX,
        Sender::new(0),
        &Objects::of(Scope::all()),
        &mut inputs,
        sink,
    )?;
    Ok(counts)
}
