//! `write_store`: a store, written as a journal.
ghost use Rattle.std.specs.Prelude.{◌≡◌, ℕ, ◌+◌, ◌*◌, ◌<◌, ◌^◌, List};
ghost use Rattle.std.specs.Prelude.{length, IfOk, if◌then◌else◌, is_ok};
ghost use Rattle.flute_parts.specs.Devices.{Writes};
ghost use Rattle.flute_journal.specs.Format.{spelling};
ghost use Rattle.flute_journal.specs.Journal.{Journal};

use crate::fault::SaveFault;
use crate::writers::journal_writer::JournalWriter;
use flute_parts::Sink;
use flute_store::Store;

/// Writes the journal of a store, and returns the number of its entries: an entry for each
/// fact that is held, in the order of their addresses. Stores that hold the same are
/// written as the same bytes.
///
/// The limits allow fewer than 2^64 entries. It takes no memory of its own, and goes
/// once over what is held.
///
/// # Errors
///
/// `Write` if the sink failed. A proper prefix of the journal was then written.
pub fn write_store<const SESSIONS: u32, const OBJECTS: u32, const SYMBOLS: u32, W: Sink>(
    store: &Store<SESSIONS, OBJECTS, SYMBOLS>,
    sink: &mut W,
) -> Result<u64, SaveFault>
    requires few { SESSIONS * OBJECTS * (SYMBOLS + 1) < 2 ^ 64 }
    ensures bytes { Writes (W.written sink.old) (W.written sink.new) (spelling store.now) result }
    ensures journal { IfOk result (λ _. Journal (spelling store.now) store.now) }
    ensures only { (bytes : List ℕ) → Journal bytes store.now → bytes ≡ spelling store.now }
    ensures count { IfOk result (λ count. count ≡ length store.now) }
    ensures failures { W.failures sink.new ≡ W.failures sink.old + (if is_ok result then 0 else 1) }
{
    let facts = store.walk();
    let mut writer = JournalWriter::new(&mut *sink);
    writer.header();
    let mut count = 0;
    for fact in facts {
        writer.entry(&fact);
        if writer.failed {
            return Err(SaveFault::Write);
        }
        count += 1;
    }
    writer.end(count);
    if writer.failed {
        return Err(SaveFault::Write);
    }
    Ok(count)
}
