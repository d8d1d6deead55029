//! An object that is sent symbol after symbol, as its content is read.
ghost use Rattle.std.specs.Prelude.{◌≡◌, ◌+◌, ◌<◌, ◌^◌, length, take, drop, min, max};
ghost use Rattle.std.specs.Prelude.{Some, OnOk, IfErr, if◌then◌else◌, is_ok};
ghost use Rattle.std.specs.Io.KnownBytes.{Consumes};
ghost use Rattle.std.specs.Option.{option_map};
ghost use Rattle.flute_parts.specs.Devices.{Writes, times_failed};
ghost use Rattle.flute_wire.specs.Carousel.{packets_of};
ghost use Rattle.flute_wire.specs.Outgoing.{said};
ghost use Rattle.flute_journal.specs.Records.{IsDatagram};
ghost use Rattle.flutejoin.specs.Extract.{SinkFails};
ghost use Rattle.flutejoin.specs.Sending.{ReadsOf, UnlessRead, OfSize, IsReadFault, IsPacketFault};
ghost use Rattle.flutejoin.specs.Sending.{Makes, symbol_with, packet_with, IsNextFault};
ghost use Rattle.flutejoin.specs.Sending.{IsSendingFault};
ghost use Rattle.flutejoin.specs.Sending.{SendsPackets};
ghost use Rattle.flutejoin.specs.Sending.{ReadFailures, ReadsEnough};
ghost use Rattle.flutejoin.specs.Sending.{GrowsOn, record_at};
ghost use Rattle.flutejoin.specs.declared.command_fault.CommandFault.TheVariants.{OutOfMemory};

use crate::command_fault::CommandFault;
use flute_journal::{FILE_HEADER, ReadFault, fill, write_record};
use flute_parts::{DeviceFault, Info, Key, Partition, Sink, Source, SymbolId};
use flute_wire::{Datagram, Outgoing, WriteFault, write};
use std::alloc::Global;

/// The most bytes of a symbol, as 16 bits count them.
const MAX_SYMBOL: usize = 65_535;

/// An object of which some bytes were not read yet.
#[derive(Drop)]
pub struct Sending {
    key: Key,
    info: Info,
    partition: Partition,
    /// How many bytes of the content are left.
    pub left: u64,
    ghost same: { partition ≡ info },
}

impl Sending {
    /// Nothing was read yet.
    pub fn new(key: &Key, info: &Info) -> Sending
        ensures key { result.key ≡ key.now }
        ensures info { result.info ≡ info.now }
        ensures left { result.left ≡ info.now.transfer_length }
    {
        Sending {
            key: *key,
            info: *info,
            partition: Partition::of(info),
            left: info.length(),
        }
    }

    // Reads the bytes of the symbol at a place into a buffer for one symbol, and makes its
    // datagram.
    fn next<R: Source>(
        &mut self,
        alloc: Global,
        place: u64,
        source: &mut R,
        buffer: &mut [u8],
    ) -> Result<Datagram, CommandFault>
        requires { length buffer.old ≡ self.old.info.symbol_length }
        ensures same_key { self.new.key ≡ self.old.key }
        ensures same_info { self.new.info ≡ self.old.info }
        ensures reads { UnlessRead result (ReadsOf (R.unread source.old) (R.unread source.new)
            self.old.left self.new.left) }
        ensures rest { OfSize (R.unread source.old) self.old.left (λ rest. UnlessRead result
            (R.unread source.new ≡ Some (drop self.old.info.symbol_length rest))) }
        ensures makes { OfSize (R.unread source.old) self.old.left (λ rest. Makes
            (packet_with self.old.key self.old.info place
            (take self.old.info.symbol_length rest)) result) }
        ensures only { IfErr result IsNextFault }
        ensures reading { ReadFailures (R.failures source.old) (R.failures source.new)
            (R.unread source.old) self.old.left result }
    {
        let count = self.left.min(buffer.len() as u64) as usize;
        let bytes = &mut buffer[..count];
        read_all_of(source, bytes)?;
        self.left -= count as u64;
        let outgoing = Outgoing {
            key: self.key,
            info: Some(self.info),
            symbol: symbol_at(&self.partition, place, bytes),
        };
        datagram_of(alloc, &outgoing)
    }
}

// Reads so many bytes as there is room for.
fn read_all_of<R: Source>(source: &mut R, bytes: &mut [u8]) -> Result<(), CommandFault>
    ensures read { OnOk result (Consumes (R.unread source.old) (R.unread source.new) bytes.new) }
    ensures fault { IfErr result IsReadFault }
    ensures reading { ReadsEnough (R.failures source.old) (R.failures source.new)
        (R.unread source.old) (length bytes.new) result }
{
    match fill(source, bytes) {
        Ok(count) if count == bytes.len() => Ok(()),
        _ => Err(CommandFault::Input(1, ReadFault::Read)),
    }
}

// The symbol at a place of the partition, with its bytes. None from the number of symbols on.
fn symbol_at<'b>(partition: &Partition, place: u64, bytes: &'b [u8]) -> Option<(SymbolId, &'b [u8])>
    ensures { option_map (λ s. (s.0, s.1.now)) result
        ≡ symbol_with partition.now place bytes.now }
{
    let id = partition.id_at(place)?;
    Some((id, bytes))
}

// The datagram of a packet.
fn datagram_of(alloc: Global, outgoing: &Outgoing<'_>) -> Result<Datagram, CommandFault>
    ensures makes { Makes (said outgoing.now) result }
    ensures fault { IfErr result (IsPacketFault (said outgoing.now)) }
{
    match write(alloc, outgoing) {
        Ok(datagram) => Ok(datagram),
        Err(WriteFault::OutOfMemory) => Err(CommandFault::OutOfMemory),
        Err(fault) => Err(CommandFault::CannotSend(fault)),
    }
}

/// Sends all packets of an object of which nothing was read yet, and returns how many they are. If
/// the sink fails, it continues without it.
///
/// # Errors
///
/// `Input` with `Read` if the source fails, or ends too early; `CannotSend` with the reason of the
/// first packet that is not written; `OutOfMemory`; and `CannotWrite` if only the sink failed.
pub fn send_symbols<R: Source, W: Sink>(
    alloc: Global,
    sending: &mut Sending,
    source: &mut R,
    sink: &mut W,
) -> Result<u64, CommandFault>
    requires { sending.old.left ≡ sending.old.info.transfer_length }
    ensures reads { UnlessRead result (ReadsOf (R.unread source.old) (R.unread source.new)
        sending.old.left sending.new.left) }
    ensures sends { OfSize (R.unread source.old) sending.old.left (λ content. SendsPackets
        (packets_of sending.old.key sending.old.info content)
        (W.written sink.old) (W.written sink.new) result) }
    ensures only { IfErr result IsSendingFault }
    ensures reading { ReadFailures (R.failures source.old) (R.failures source.new)
        (R.unread source.old) sending.old.left result }
    ensures failures { SinkFails (W.failures sink.old) (W.failures sink.new) result }
{
    let mut room = [0; MAX_SYMBOL];
    let buffer = &mut room[..usize::from(sending.info.symbol())];
    let count = sending.partition.symbols().max(1);
    let mut failed = false;
    for place in 0..count {
        let datagram = sending.next(alloc, place, source, buffer)?;
        failed = put_record(failed, place, &datagram, sink);
    }
    if failed {
        return Err(CommandFault::CannotWrite);
    }
    Ok(count)
}

// Appends the record of the datagram at a place to the file, unless the sink has failed. Returns
// whether it has.
fn put_record<W: Sink>(failed: bool, place: u64, datagram: &Datagram, sink: &mut W) -> bool
    ensures valid { IsDatagram datagram.now }
    ensures grows { GrowsOn failed result (W.written sink.old) (W.written sink.new)
        (record_at place datagram.now) }
    ensures failures { W.failures sink.new + times_failed failed
        ≡ W.failures sink.old + times_failed result }
{
    let bytes = datagram.as_slice();
    if failed {
        return true;
    }
    write_at(place, bytes, sink).is_err()
}

// Writes the record of the datagram at a place, and the header before the first.
fn write_at<W: Sink>(place: u64, bytes: &[u8], sink: &mut W) -> Result<(), DeviceFault>
    requires { length bytes.now < 2 ^ 16 }
    ensures bytes { Writes (W.written sink.old) (W.written sink.new)
        (record_at place bytes.now) result }
    ensures failures { W.failures sink.new ≡ W.failures sink.old
        + (if is_ok result then 0 else 1) }
{
    if place > 0 {
        return write_record(bytes, sink);
    }
    sink.write_all(&FILE_HEADER)?;
    write_record(bytes, sink)
}
