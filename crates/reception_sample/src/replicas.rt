//! Replicas that are given the same write equal journals.

use anyhow::{Context, Result};
use flute_parts::{MemorySink, Sender};
use flute_wire::{Datagram, Datagrams};
use flutejoin::{MAX_OBJECTS, MAX_SESSIONS, MAX_SYMBOLS};
use flutejoin_replicas::{Step, journal_after};
use std::alloc::Global;

/// Prints whether two replicas write equal journals, of which one takes the datagrams in their
/// order, and the other in falling order and each of them twice, is then written and read, and
/// takes in the first.
pub fn tell_replicas(rt: &HostRuntime, sender: Sender, datagrams: &Datagrams) -> Result<()> {
    let mut steps = Vec::new(rt.alloc());
    for place in 0..datagrams.len() {
        steps.push(take(rt.alloc(), 0, sender, datagrams, place)?)?;
    }
    for place in (0..datagrams.len()).rev() {
        steps.push(take(rt.alloc(), 1, sender, datagrams, place)?)?;
        steps.push(take(rt.alloc(), 1, sender, datagrams, place)?)?;
    }
    steps.push(Step::Reopen { replica: 1 })?;
    steps.push(Step::Merge { into: 1, from: 0 })?;
    let first = journal_of_replica(rt.alloc(), &steps, 0)?;
    let second = journal_of_replica(rt.alloc(), &steps, 1)?;
    let equal = first.as_slice() == second.as_slice();
    println!(rt; "equal journals: {equal}")?;
    Ok(())
}

// The step in which a replica takes the datagram at this place.
fn take(
    alloc: Global,
    replica: u32,
    sender: Sender,
    datagrams: &Datagrams,
    place: usize,
) -> Result<Step> {
    let datagram = datagrams.get(place).context("a datagram")?;
    let datagram = Datagram::new(alloc, datagram.as_slice())?;
    Ok(Step::Take {
        replica,
        sender,
        datagram,
    })
}

// The journal of one of two replicas after these steps.
fn journal_of_replica(alloc: Global, steps: &[Step], replica: u32) -> Result<MemorySink> {
    let mut sink = MemorySink::new(alloc);
    journal_after::<MAX_SESSIONS, MAX_OBJECTS, MAX_SYMBOLS, _>(
        alloc, 2, steps, replica, &mut sink,
    )?;
    Ok(sink)
}
