//! `JournalReader`: reads a journal, entry by entry.
ghost use Rattle.std.specs.Prelude.{◌≡◌, ℕ, ◌+◌, ◌<◌, ◌^◌, IfOk, IfSome, OnErr};
ghost use Rattle.std.specs.Prelude.{Ok, Some};
ghost use Rattle.std.specs.Prelude.{None};
ghost use Rattle.flute_journal.specs.Input.{Fails, FailsIf};
ghost use Rattle.std.specs.Io.KnownBytes.{Consumes};
ghost use Rattle.flute_journal.specs.HeldEntries.{HoldsNext, reading, spelled_in};
ghost use Rattle.flute_journal.specs.Readers.{source_of, limit_of, state_of};
ghost use Rattle.flute_journal.specs.JournalFraming.{journal_framing};
ghost use Rattle.flute_journal.specs.Framing.{Gives, is_open, state_after};
ghost use Rattle.flute_journal.specs.declared.readers.held_entry.HeldEntry.TheVariants as HeldEntry;
ghost use Rattle.flute_journal.specs.declared.readers.reader_state.ReaderState.TheVariants as ReaderState;

use crate::fault::ReadFault;
use crate::format::Version;
use crate::readers::entry_fields::{Before, read_entry, read_header};
use crate::readers::held_entry::HeldEntry;
use crate::readers::lent::{hold_next, take_entry};
use crate::readers::reader_state::ReaderState;
use flute_parts::{Fact, Part, Source};
use std::alloc::Global;
use std::mem;

/// A journal that is read entry by entry. It never reads past what it has given.
#[derive(Drop)]
pub struct JournalReader<'a, R> {
    source: &'a mut R,
    max_entries: u64,
    state: ReaderState<Before>,
}

impl<'a, R: Source> JournalReader<'a, R> {
    /// A reader of the journal that the source holds, which may have at most `max_entries` entries.
    /// It takes no memory, and reads nothing yet.
    pub fn new(source: &'a mut R, max_entries: u64) -> JournalReader<'a, R>
        ensures source { (source_of result).ghost_name ≡ source.entry.ghost_name }
        ensures unread { (source_of result).now ≡ source.old }
        ensures limit { limit_of result ≡ max_entries }
        ensures state { state_of result ≡ ReaderState.Header }
    {
        JournalReader {
            source,
            max_entries,
            state: ReaderState::Header,
        }
    }

    /// The next entry. None once the end was read and nothing follows it, and from then on.
    ///
    /// The entry of a symbol, after the first entry, is read in the source's buffer if it is
    /// whole there; any other is read field by field. No byte past it is taken. The bytes of a
    /// symbol are the only memory that is asked for.
    ///
    /// # Errors
    ///
    /// The first fault of the bytes, in the order of the fields:
    ///
    /// - `Magic` and `Version` of the header;
    /// - `Kind` of the first byte of an entry, and `TooMany` if that is a kind and `max_entries`
    ///   entries were given;
    /// - `Key` if the tag or the number of the object is out of range;
    /// - `Order` if the address is not above that of the entry before;
    /// - `Information` if transmission information is not valid, `EmptySymbol` if a symbol has no
    ///   byte;
    /// - `Count` if the number at the end is not that of the entries given, `Trailing` if a byte
    ///   follows it;
    /// - `Cut` if the input ends within a field;
    /// - `Read` if the source fails in this call, and `OutOfMemory` if there is no memory for a
    ///   symbol.
    ///
    /// The fields that were read before the source failed are checked first: `Read` is returned
    /// if the fault would be `Cut` with the input ended there, or if the source fails after the
    /// end was read.
    ///
    /// Each later call returns the same fault, and reads nothing.
    pub fn next(&mut self, alloc: Global) -> Result<Option<Fact>, ReadFault>
        ensures source { (source_of self.new).ghost_name ≡ (source_of self.old).ghost_name }
        ensures limit { limit_of self.new ≡ limit_of self.old }
        ensures gives { Gives journal_framing (limit_of self.old) (state_of self.old)
            (state_of self.new) (R.unread (source_of self.old).now)
            (R.unread (source_of self.new).now) result }
        ensures failures { FailsIf (is_open (state_of self.old))
            (R.failures (source_of self.old).now) (R.failures (source_of self.new).now) result }
    {
        self.next_with(alloc, Vec::new(alloc))
    }

    /// The same, but the bytes of a symbol that is looked at in the source's buffer are put into
    /// the memory of `spare`: a caller that lets go of each entry before it reads the next hands
    /// its vector on, and memory is taken only where that is too small, or for a symbol that is
    /// read field by field.
    #[inline(always)]
    pub fn next_with(&mut self, alloc: Global, spare: Vec<u8>) -> Result<Option<Fact>, ReadFault>
        ensures source { (source_of self.new).ghost_name ≡ (source_of self.old).ghost_name }
        ensures limit { limit_of self.new ≡ limit_of self.old }
        ensures gives { Gives journal_framing (limit_of self.old) (state_of self.old)
            (state_of self.new) (R.unread (source_of self.old).now)
            (R.unread (source_of self.new).now) result }
        ensures failures { FailsIf (is_open (state_of self.old))
            (R.failures (source_of self.old).now) (R.failures (source_of self.new).now) result }
    {
        read_at(alloc, self.source, self.max_entries, &mut self.state, spare)
    }

    /// Lets go of the entry that is held, and holds the next: none if the end was read, or after a
    /// fault. An entry of a symbol is held where it lies in the source's buffer, if it is whole
    /// there: then it is taken from the source once it is let go of.
    ///
    /// # Errors
    ///
    /// Those of `next`.
    #[inline(always)]
    pub fn next_into(&mut self, alloc: Global, held: &mut HeldEntry) -> Result<(), ReadFault>
        ensures source { (source_of self.new).ghost_name ≡ (source_of self.old).ghost_name }
        ensures limit { limit_of self.new ≡ limit_of self.old }
        ensures holds { HoldsNext R.unread R.buffered R.failures (limit_of self.old)
            (reading (source_of self.old).now (state_of self.old) held.old)
            (reading (source_of self.new).now (state_of self.new) held.new) result }
    {
        read_into(alloc, self.source, self.max_entries, &mut self.state, held)
    }

    /// Lends what its source's buffer holds, at the front of which an entry may be held.
    #[inline(always)]
    pub fn buffer(&self) -> &[u8]
        ensures { result.now ≡ R.buffered (source_of self.now).now }
    {
        self.source.buffer()
    }

    /// Lets go of the entry that is held, so that nothing is: what its source has left is then what
    /// follows that entry.
    pub fn let_go(&mut self, alloc: Global, held: &mut HeldEntry)
        ensures source { (source_of self.new).ghost_name ≡ (source_of self.old).ghost_name }
        ensures limit { limit_of self.new ≡ limit_of self.old }
        ensures state { state_of self.new ≡ state_of self.old }
        ensures nothing { held.new ≡ HeldEntry.Nothing }
        ensures takes { Consumes (R.unread (source_of self.old).now)
            (R.unread (source_of self.new).now)
            (spelled_in (R.buffered (source_of self.old).now) held.old) }
        ensures failures { R.failures (source_of self.new).now
            ≡ R.failures (source_of self.old).now }
    {
        let _ = held.let_go(alloc, self.source);
    }
}

/// Lets go of the entry that is held, and holds the next entry of a journal, as `next_into` does,
/// for who keeps the source and the reader's state. This is `ReaderState::Header` before the first
/// call.
///
/// # Errors
///
/// Those of `JournalReader::next`.
#[inline(always)]
pub fn read_into<R: Source>(
    alloc: Global,
    source: &mut R,
    max_entries: u64,
    state: &mut ReaderState<Before>,
    held: &mut HeldEntry,
) -> Result<(), ReadFault>
    ensures { HoldsNext R.unread R.buffered R.failures max_entries
        (reading source.old state.old held.old) (reading source.new state.new held.new) result }
{
    // The next entry may lie in the source's buffer, and be of a symbol of the same file as the
    // entry before it.
    match state {
        ReaderState::Items(before)
            if matches!(before.version, Version::Two) && before.count < max_entries => {
            if let Some(last) = &mut before.last {
                if let Some(id) = hold_next(source, last, held) {
                    before.count += 1;
                    last.part = Part::Symbol(id);
                    return Ok(());
                }
            }
        }
        _ => {}
    }
    hold_anew(alloc, source, max_entries, state, held)
}

// Reads the next entry, whatever it is. It is not inlined into the step that advances a stream,
// which would take longer.
#[inline(never)]
fn hold_anew<R: Source>(
    alloc: Global,
    source: &mut R,
    max_entries: u64,
    state: &mut ReaderState<Before>,
    held: &mut HeldEntry,
) -> Result<(), ReadFault>
    ensures { HoldsNext R.unread R.buffered R.failures max_entries
        (reading source.old state.old held.old) (reading source.new state.new held.new) result }
{
    let spare = held.let_go(alloc, source);
    if let Some(fact) = read_at(alloc, source, max_entries, state, spare)? {
        *held = HeldEntry::of(fact);
    }
    Ok(())
}

// The next entry of a journal whose reader has this state, and its state afterwards.
#[tactic(auto, using(crate::proofs::Cited::gives_entries, crate::proofs::Cited::entry_wanted))]
#[inline(always)]
fn read_at<R: Source>(
    alloc: Global,
    source: &mut R,
    max_entries: u64,
    state: &mut ReaderState<Before>,
    spare: Vec<u8>,
) -> Result<Option<Fact>, ReadFault>
    ensures gives { Gives journal_framing max_entries state.old state.new
        (R.unread source.old) (R.unread source.new) result }
    ensures failures { FailsIf (is_open state.old)
        (R.failures source.old) (R.failures source.new) result }
{
    if let ReaderState::Items(before) = state {
        if before.count < max_entries {
            match take_entry(source, before.version, &before.last, spare) {
                Ok(Some(fact)) => {
                    before.count += 1;
                    before.last = Some(fact.address());
                    return Ok(Some(fact));
                }
                Ok(None) => {}
                Err(fault) => {
                    *state = ReaderState::Failed(fault);
                    return Err(fault);
                }
            }
        }
    }
    read_fields(alloc, source, max_entries, state)
}

// Reads the next entry field by field, and not where it lies in the source's buffer.
#[tactic(auto, using(crate::proofs::Cited::gives_entries, crate::proofs::Cited::reads_entries))]
#[inline(never)]
fn read_fields<R: Source>(
    alloc: Global,
    source: &mut R,
    max_entries: u64,
    state: &mut ReaderState<Before>,
) -> Result<Option<Fact>, ReadFault>
    ensures gives { Gives journal_framing max_entries state.old state.new
        (R.unread source.old) (R.unread source.new) result }
    ensures failures { FailsIf (is_open state.old)
        (R.failures source.old) (R.failures source.new) result }
{
    let before = match mem::replace(state, ReaderState::Ended) {
        ReaderState::Ended => return Ok(None),
        ReaderState::Failed(fault) => {
            *state = ReaderState::Failed(fault);
            return Err(fault);
        }
        ReaderState::Header => match read_header(source) {
            Ok(version) => Before {
                version,
                count: 0,
                last: None,
            },
            Err(fault) => {
                *state = ReaderState::Failed(fault);
                return Err(fault);
            }
        },
        ReaderState::Items(before) => before,
    };
    let given = read_entry(alloc, source, max_entries, &before);
    *state = state_after(&before, &given);
    given
}

// The state of a reader that gave this after `before`.
fn state_after(before: &Before, given: &Result<Option<Fact>, ReadFault>) -> ReaderState<Before>
    requires { IfOk given.now (λ o. IfSome o (λ _. before.now.count + 1 < 2 ^ 64)) }
    ensures { result ≡ state_after journal_framing before.now given.now }
{
    match given {
        Ok(Some(fact)) => ReaderState::Items(Before {
            version: before.version,
            count: before.count + 1,
            last: Some(fact.address()),
        }),
        Ok(None) => ReaderState::Ended,
        Err(fault) => ReaderState::Failed(*fault),
    }
}
