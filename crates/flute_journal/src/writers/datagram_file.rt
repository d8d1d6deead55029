//! `write_datagrams`: datagrams, written as a datagram file.
ghost use Rattle.std.specs.Prelude.{◌≡◌, ◌+◌, ◌<◌, ◌≤◌, ◌^◌, ◌++◌, length, flat_map};
ghost use Rattle.std.specs.Prelude.{IfOk, if◌then◌else◌, is_ok};
ghost use Rattle.flute_parts.specs.Devices.{Writes};
ghost use Rattle.std.specs.List.{AllByRecursion};
ghost use Rattle.flute_journal.specs.Numbers.{in_bytes};
ghost use Rattle.flute_parts.specs.Ranges.{IsByte};
ghost use Rattle.flute_journal.specs.Records.{file_header, record_of, IsDatagram, IsFileOf};

use crate::fault::SaveFault;
use crate::format::number::length_field;
use crate::readers::datagram_reader::FILE_HEADER;
use flute_parts::{DeviceFault, Sink};
use flute_wire::Datagram;

/// Writes a datagram file, a record for each datagram in their order, and returns the number of the
/// records. It takes no memory of its own.
///
/// # Errors
///
/// `Write` if the sink failed. A proper prefix of the file was then written.
#[tactic(auto, using(crate::proofs::writers_lemmas::Sending::sends))]
pub fn write_datagrams<W: Sink>(datagrams: &[Datagram], sink: &mut W) -> Result<u64, SaveFault>
    ensures bytes { Writes (W.written sink.old) (W.written sink.new)
        (file_header ++ flat_map record_of datagrams.now) result }
    ensures file { IfOk result
        (λ _. IsFileOf (file_header ++ flat_map record_of datagrams.now) datagrams.now) }
    ensures count { IfOk result (λ count. count ≡ length datagrams.now) }
    ensures failures { W.failures sink.new ≡ W.failures sink.old + (if is_ok result then 0 else 1) }
{
    let count = datagrams.len();
    sink.write_all(&FILE_HEADER)?;
    let mut place = 0;
    while let Some(datagram) = datagrams.get(place) {
        write_record(datagram.as_slice(), sink)?;
        place += 1;
    }
    Ok(count as u64)
}

/// Writes the record of a datagram of these bytes, at most 65,535, as it stands in a datagram file
/// behind the header and the records before it. It takes no memory of its own.
///
/// # Errors
///
/// `DeviceFault` if the sink failed. A proper prefix of the record was then written.
pub fn write_record<W: Sink>(bytes: &[u8], sink: &mut W) -> Result<(), DeviceFault>
    requires { length bytes.now < 2 ^ 16 }
    ensures valid { IsDatagram bytes.now }
    ensures bytes { Writes (W.written sink.old) (W.written sink.new)
        (record_of bytes.now) result }
    ensures failures { W.failures sink.new ≡ W.failures sink.old + (if is_ok result then 0 else 1) }
{
    sink.write_all(&length_field(bytes))?;
    sink.write_all(bytes)
}
