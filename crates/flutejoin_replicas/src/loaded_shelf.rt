//! A journal, read into a store of the size that the program uses.
ghost use Rattle.std.specs.Prelude.{false, IfOk, IfErr, IfSome};
ghost use Rattle.std.specs.Io.KnownBytes.{IsAtEnd};
ghost use Rattle.flute_journal.specs.Stores.{IsJournalOf};
ghost use Rattle.flutejoin.specs.Show.{FailsToRead};
ghost use Rattle.flutejoin.specs.declared.limits.TheConstants.{MAX_ENTRIES};
ghost use Rattle.flutejoin.specs.Limits.{limits_of};
ghost use Rattle.flutejoin.specs.Load.{LoadFails};

use flute_journal::read_store;
use flute_parts::Source;
use flute_store::Shelf;
use flutejoin::{CommandFault, MAX_ENTRIES, load_fault};
use std::alloc::Global;

/// Reads the journal that the source gives, of at most 16,777,216 entries, into a new store.
///
/// # Errors
///
/// The first that is met: `Input` with the fault of the journal, or if the source failed or
/// there was no memory for a symbol, and the entries before it are within the limits of the store;
/// `Full` if an entry needs a new session, object or symbol beyond the limits of the store;
/// `OutOfMemory` if the store found none for an entry.
pub fn load<R: Source>(alloc: Global, source: &mut R) -> Result<Shelf, CommandFault>
    ensures journal { IfOk result (λ shelf. IfSome (R.unread source.old)
        (λ bytes. IsJournalOf MAX_ENTRIES bytes shelf)) }
    ensures end { IfOk result (λ _. IsAtEnd (R.unread source.new)) }
    ensures failed { IfErr result
        (LoadFails (limits_of false) 1 (R.unread source.old) (R.unread source.new)) }
    ensures failures { FailsToRead (R.failures source.old) (R.failures source.new) result }
{
    match read_store(alloc, source, MAX_ENTRIES) {
        Ok(shelf) => Ok(shelf),
        Err(fault) => Err(load_fault(1, fault)),
    }
}
