//! A store is fed with datagrams, and an object is extracted.

use anyhow::{Context, Result, bail};
use flute_parts::{Key, MemorySink, Sender};
use flute_store::{Shelf, Status, Store};
use flute_wire::Datagrams;
use std::alloc::Global;

/// The store of a station that received all datagrams but one, in falling order.
pub fn store_without(
    alloc: Global,
    sender: Sender,
    datagrams: &Datagrams,
    lost: usize,
) -> Result<Shelf> {
    let mut store = Store::new(alloc);
    for place in (0..datagrams.len()).rev() {
        if place != lost {
            let datagram = datagrams.get(place).context("a datagram")?;
            store.take(alloc, sender, datagram.as_slice())?;
        }
    }
    Ok(store)
}

/// Prints the bytes of an object if it is whole, and else how much is missing, and the first gap.
pub fn tell_object(rt: &HostRuntime, store: &Shelf, key: &Key) -> Result<()> {
    match store.status(key) {
        Some(Status::Whole { length }) => {
            let mut sink = MemorySink::new(rt.alloc());
            store.extract(key, &mut sink)?;
            let text = str::from_utf8(sink.as_slice())?;
            println!(rt; "whole, {length} bytes: {text}")?;
        }
        Some(Status::Partial { missing, .. }) => {
            println!(rt; "partial, {missing} missing")?;
            if let Some(gap) = store.gaps(key)?.next() {
                println!(rt; "block {}, symbols {} to {}", gap.sbn, gap.first, gap.last)?;
            }
        }
        _ => bail!("nothing is known of the object"),
    }
    Ok(())
}
