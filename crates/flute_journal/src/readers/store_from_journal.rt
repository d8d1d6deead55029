//! `read_store`: a journal, read into a new store.
ghost use Rattle.std.specs.Prelude.{IfOk, IfErr, IfSome};
ghost use Rattle.std.specs.Io.KnownBytes.{IsAtEnd};
ghost use Rattle.flute_parts.specs.Limits.{Over};
ghost use Rattle.flute_journal.specs.Stores.{FailsToLoad, IsJournalOf, IsLoadFault, ReadsNoMore};

use crate::fault::LoadFault;
use crate::readers::journal_reader::JournalReader;
use flute_parts::Source;
use flute_store::Store;
use std::alloc::Global;

/// Reads the journal that the source holds, which may have at most `max_entries`
/// entries, into a new store.
///
/// It reads entry by entry, and the whole source if it succeeds.
///
/// # Errors
///
/// The first that is met:
///
/// - `Read` with the fault that [`JournalReader::next`] returns: the entries before it are
///   within the limits;
/// - `Full` if an entry needs a new session, object or symbol beyond the limits;
/// - `OutOfMemory` if there is no memory for an entry in the store.
///
/// There is no store after any of these, and nothing past the entry at which it ended was read.
#[tactic(auto, using(crate::proofs::readers_lemmas::Loading::loads))]
pub fn read_store<const SESSIONS: u32, const OBJECTS: u32, const SYMBOLS: u32, R: Source>(
    alloc: Global,
    source: &mut R,
    max_entries: u64,
) -> Result<Store<SESSIONS, OBJECTS, SYMBOLS>, LoadFault>
    ensures journal { IfOk result (λ store. IfSome (R.unread source.old)
        (λ bytes. IsJournalOf max_entries bytes store)) }
    ensures end { IfOk result (λ _. IsAtEnd (R.unread source.new)) }
    ensures within { IfOk result (λ store. ¬ Over store SESSIONS OBJECTS SYMBOLS) }
    ensures fault { IfErr result (IsLoadFault SESSIONS OBJECTS SYMBOLS max_entries
        (R.unread source.old) (R.unread source.new)) }
    ensures reads { IfErr result (ReadsNoMore SESSIONS OBJECTS SYMBOLS max_entries
        (R.unread source.old) (R.unread source.new)) }
    ensures failures { FailsToLoad (R.failures source.old) (R.failures source.new) result }
{
    let mut store = Store::new(alloc);
    let mut reader = JournalReader::new(source, max_entries);
    let mut spare = Vec::new(alloc);
    while let Some(fact) = reader.next_with(alloc, spare)? {
        store.add(alloc, &fact)?;
        spare = fact.into_vec(alloc);
    }
    Ok(store)
}
