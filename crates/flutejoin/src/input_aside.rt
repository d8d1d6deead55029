//! Copies a whole input to where it can be read twice.

ghost use Rattle.std.specs.Prelude.{◌≡◌, ◌+◌, ◌<◌, ◌≤◌, ◌↔◌, length, IsTrue, IsSomeAnd, IfOk};
ghost use Rattle.std.specs.Prelude.{IfErr, IfSome};
ghost use Rattle.std.specs.Io.KnownBytes.{Appends};
ghost use Rattle.flutejoin.specs.InputAside.{PutFails};
ghost use Rattle.flutejoin.specs.Packet.{write_failures};

use crate::command_fault::CommandFault;
use flute_journal::ReadFault;
use flute_parts::{Sink, Source};

/// The most bytes of an input.
const MAX_LEN: usize = 4_294_967_295;

/// The most bytes that are read at a time.
const PIECE: usize = 65_536;

/// Whether an input of so many bytes, if that is known, has more than 4,294,967,295.
pub fn is_too_large(size: Option<u64>) -> bool
    ensures { IsTrue result ↔ IsSomeAnd size (λ n. 4294967295 < n) }
{
    match size {
        Some(size) => size > MAX_LEN as u64,
        None => false,
    }
}

/// Puts all that a source has into a sink, at most 4,294,967,295 bytes, and answers how many they
/// are. It reads up to 65,536 bytes at a time, and takes no memory.
///
/// # Errors
///
/// The first that is met: `Input` with `Read`, as input 1, if the source fails; `TooLarge`, of that
/// input, after 4,294,967,295 bytes; and `CannotWrite` if the sink failed. The sink took a first
/// part of the bytes then.
pub fn put_aside<R: Source, W: Sink>(source: &mut R, sink: &mut W) -> Result<u64, CommandFault>
    ensures put { IfOk result (λ n. IfSome (R.unread source.old) (λ bytes. (n ≡ length bytes)
        × Appends (W.written sink.old) (W.written sink.new) bytes)) }
    ensures limit { IfOk result (λ n. n ≤ 4294967295) }
    ensures failed { IfErr result (PutFails (R.unread source.old)) }
    ensures failures { W.failures sink.new ≡ W.failures sink.old + write_failures result }
{
    let mut piece = [0; PIECE];
    let mut size = 0;
    loop {
        let Ok(count) = source.read(&mut piece) else {
            return Err(CommandFault::Input(1, ReadFault::Read));
        };
        if count == 0 {
            return Ok(size as u64);
        }
        if count > MAX_LEN - size {
            return Err(CommandFault::TooLarge(1));
        }
        match sink.write_all(&piece[..count]) {
            Ok(()) => size += count,
            Err(_) => return Err(CommandFault::CannotWrite),
        }
    }
}
