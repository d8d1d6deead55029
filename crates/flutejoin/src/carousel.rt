//! The command `carousel`: an object, as a file of datagrams.
ghost use Rattle.std.specs.Prelude.{◌≡◌, ◌+◌, ◌++◌, flat_map, Err, IfErr, IfOk};
ghost use Rattle.std.specs.Prelude.{OnOk};
ghost use Rattle.flute_journal.specs.Records.{file_header, record_of};
ghost use Rattle.flute_parts.specs.Devices.{AppendsPart};
ghost use Rattle.flutejoin.specs.Carousel.{OfInput, SendsInput, SendFails};
ghost use Rattle.flutejoin.specs.Extract.{SinkFails};
ghost use Rattle.flutejoin.specs.Sending.{Ends, EndsReading, HasLeft, ReadFailures, TellsLeft};

pub(crate) mod sending;

use crate::carousel::sending::{Sending, send_symbols};
use crate::command_fault::CommandFault;
use flute_journal::ReadFault;
use flute_parts::{Info, Key, Sink, Source};
use std::alloc::Global;

/// How many bytes are read at once where none is written.
const PIECE: usize = 65_536;

/// Writes the file of the datagrams of an object, and returns how many they are. Its content is all
/// that the source has, which is to be `size` bytes, in symbols of `symbol` bytes and blocks of at
/// most `block` symbols. There is a datagram for each symbol of its partition, in that order, with
/// the transmission information; of no content one, with the information alone. They are written
/// as the content is read, and one symbol is held.
///
/// # Errors
///
/// The first of these that applies, wherever in the content it is found:
///
/// - `Input` with `Read`, as input 1, if the source fails, or has not `size` bytes;
/// - `BadInformation` if the three numbers are no transmission information;
/// - `CannotSend` if a datagram cannot be written, with the reason of the first;
/// - `OutOfMemory` if there was none for a datagram;
/// - `CannotWrite` if the sink failed: it took a proper prefix of the file.
pub fn send_to<R: Source, W: Sink>(
    alloc: Global,
    key: &Key,
    symbol: u16,
    block: u32,
    size: u64,
    source: &mut R,
    sink: &mut W,
) -> Result<u64, CommandFault>
    ensures sent { IfOk result (λ count. SendsInput (R.unread source.old) key.now symbol block
        count (W.written sink.old) (W.written sink.new)) }
    ensures size { OnOk result (HasLeft (R.unread source.old) size) }
    ensures failed { IfErr result (SendFails (R.unread source.old) key.now symbol block) }
    ensures part { result ≡ Err CommandFault.CannotWrite
        → OfInput (R.unread source.old) key.now symbol block
        (λ d. AppendsPart (W.written sink.old) (W.written sink.new)
        (file_header ++ flat_map record_of d)) }
    ensures reads { ReadFailures (R.failures source.old) (R.failures source.new)
        (R.unread source.old) size result }
    ensures failures { SinkFails (W.failures sink.old) (W.failures sink.new) result }
{
    let info = match Info::new(size, symbol, block) {
        Ok(info) => info,
        Err(fault) => {
            return at_end(source, size, Err(CommandFault::BadInformation(fault)));
        }
    };
    let mut sending = Sending::new(key, &info);
    let sent = send_symbols(alloc, &mut sending, source, sink);
    at_end(source, sending.left, sent)
}

// The result after sending from a source, of which so many bytes should be left: they are read, and
// if it fails, or has more or fewer, that is returned in place of the result.
fn at_end<R: Source>(
    source: &mut R,
    left: u64,
    sent: Result<u64, CommandFault>,
) -> Result<u64, CommandFault>
    ensures ends { Ends (R.unread source.old) left sent result }
    ensures reads { EndsReading (R.failures source.old) (R.failures source.new)
        (R.unread source.old) left sent result }
{
    match sent {
        Err(CommandFault::Input(number, fault)) => Err(CommandFault::Input(number, fault)),
        _ if has_left(source, left) => sent,
        _ => Err(CommandFault::Input(1, ReadFault::Read)),
    }
}

// Whether a source has just so many bytes left. They are read.
fn has_left<R: Source>(source: &mut R, left: u64) -> bool
    ensures { TellsLeft (R.failures source.old) (R.failures source.new) (R.unread source.old)
        left result }
{
    let mut piece = [0; PIECE];
    let mut left = left;
    loop {
        match source.read(&mut piece) {
            Ok(0) => return left == 0,
            Ok(count) if count as u64 <= left => left -= count as u64,
            _ => return false,
        }
    }
}
