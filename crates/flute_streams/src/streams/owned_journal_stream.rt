//! A stream of the entries of a journal, with the source that it is read from.
ghost use Rattle.std.specs.Prelude.{◌≡◌};
ghost use Rattle.flute_streams.specs.Streams.{IsNew};
ghost use Rattle.flute_streams.specs.OwnedStreams.{owned_limit, owned_state, held_of};
ghost use Rattle.flute_streams.specs.OwnedStreams.{left_in, owned_behaviour};
ghost use Rattle.flute_journal.specs.declared.readers.held_entry.HeldEntry.TheVariants as held;
ghost use Rattle.flute_journal.specs.declared.readers.reader_state.ReaderState.TheVariants as ReaderState;

use crate::streams::stream::Stream;
use flute_journal::{Before, HeldEntry, LoadFault, ReaderState, read_into};
use flute_parts::{Address, FactRef, Source};
use std::alloc::Global;

/// A journal that is read as a stream, with its source. One entry of it is held.
#[derive(Drop)]
pub struct OwnedJournalStream<R> {
    pub source: R,
    max_entries: u64,
    state: ReaderState<Before>,
    held: HeldEntry,
}

impl<R: Source> OwnedJournalStream<R> {
    /// The stream of the journal that the source holds, which may have at most `max_entries`
    /// entries. It takes no memory, and reads nothing yet.
    pub fn new(source: R, max_entries: u64) -> Self
        ensures source { result.source ≡ source }
        ensures left { left_in R.unread R.buffered result ≡ R.unread source }
        ensures limit { owned_limit result ≡ max_entries }
        ensures state { owned_state result ≡ ReaderState.Header }
        ensures held { held_of result ≡ held.Nothing }
        ensures new { IsNew (owned_behaviour R.unread R.buffered R.failures) result }
        ensures most { (owned_behaviour R.unread R.buffered R.failures).most result ≡ max_entries }
    {
        OwnedJournalStream {
            source,
            max_entries,
            state: ReaderState::Header,
            held: HeldEntry::Nothing,
        }
    }

    /// Begins anew: the stream of the journal that is left in the source.
    pub fn restart(&mut self, max_entries: u64)
        ensures source { self.new.source ≡ self.old.source }
        ensures left { left_in R.unread R.buffered self.new ≡ R.unread self.old.source }
        ensures limit { self.new.max_entries ≡ max_entries }
        ensures new { IsNew (owned_behaviour R.unread R.buffered R.failures) self.new }
        ensures most { (owned_behaviour R.unread R.buffered R.failures).most self.new
            ≡ max_entries }
    {
        self.max_entries = max_entries;
        self.state = ReaderState::Header;
        self.held = HeldEntry::Nothing;
    }
}

impl<R: Source> Stream for OwnedJournalStream<R> {
    ghost behaviour = { owned_behaviour R.unread R.buffered R.failures };

    #[inline(always)]
    fn head(&self) -> Option<FactRef<'_>> {
        self.held.fact(self.source.buffer())
    }

    #[inline(always)]
    fn address(&self) -> Option<&Address> {
        self.held.address()
    }

    #[inline(always)]
    fn spelled(&self) -> &[u8] {
        self.held.spelled(self.source.buffer())
    }

    #[inline(always)]
    fn advance(&mut self, alloc: Global) -> Result<(), LoadFault> {
        let source = &mut self.source;
        read_into(
            alloc,
            source,
            self.max_entries,
            &mut self.state,
            &mut self.held,
        )?;
        Ok(())
    }
}
