//! Reads a packet, and prints what it contains.

use anyhow::{Context, Result};
use flute_wire::{Datagrams, read};

/// Reads the last datagram, and prints what its packet contains.
pub fn tell_packet(rt: &HostRuntime, datagrams: &Datagrams) -> Result<()> {
    let last = datagrams.len().checked_sub(1).context("a datagram")?;
    let datagram = datagrams.get(last).context("a datagram")?;
    let packet = read(datagram.as_slice())?;
    let (id, bytes) = packet.symbol().context("a symbol")?;
    println!(rt; "session {} object {}", packet.tsi(), packet.toi())?;
    println!(rt; "symbol {}/{} of {} bytes", id.sbn, id.esi, bytes.len())?;
    Ok(())
}
