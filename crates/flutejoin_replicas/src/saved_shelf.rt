//! A store, written as a journal.
ghost use Rattle.std.specs.Prelude.{◌≡◌, ◌+◌, length, IfOk, IfErr, OnOk};
ghost use Rattle.std.specs.Io.KnownBytes.{Appends};
ghost use Rattle.flute_parts.specs.Devices.{AppendsPart};
ghost use Rattle.flute_journal.specs.Format.{spelling};
ghost use Rattle.flute_journal.specs.Journal.{Journal};
ghost use Rattle.flutejoin.specs.Objects.{FailsToWrite};
ghost use Rattle.flutejoin.specs.Packet.{write_failures};

use flute_journal::write_store;
use flute_parts::Sink;
use flute_store::Shelf;
use flutejoin::CommandFault;

/// Writes the journal of the store, and returns the number of its entries.
///
/// # Errors
///
/// `CannotWrite` if the sink failed: it took a proper prefix of the journal.
pub fn save_to<W: Sink>(shelf: &Shelf, sink: &mut W) -> Result<u64, CommandFault>
    ensures written { OnOk result
        (Appends (W.written sink.old) (W.written sink.new) (spelling shelf.now)) }
    ensures journal { OnOk result (Journal (spelling shelf.now) shelf.now) }
    ensures count { IfOk result (λ count. count ≡ length shelf.now) }
    ensures failed { IfErr result (FailsToWrite
        (AppendsPart (W.written sink.old) (W.written sink.new) (spelling shelf.now))) }
    ensures failures { W.failures sink.new ≡ W.failures sink.old + write_failures result }
{
    match write_store(shelf, sink) {
        Ok(count) => Ok(count),
        Err(_) => Err(CommandFault::CannotWrite),
    }
}
