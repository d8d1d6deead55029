//! A stream of the entries of a journal, whose reader is lent.
ghost use Rattle.flute_streams.specs.JournalStreams.{lent_behaviour};

use crate::streams::stream::Stream;
use flute_journal::{HeldEntry, JournalReader, LoadFault};
use flute_parts::{Address, FactRef, Source};
use std::alloc::Global;

/// The stream of a journal whose reader, and the place for the entry that is held, are lent to it.
#[derive(Drop)]
pub struct LentStream<'r, 'a, R> {
    pub reader: &'r mut JournalReader<'a, R>,
    pub held: &'r mut HeldEntry,
}

impl<'r, 'a, R: Source> Stream for LentStream<'r, 'a, R> {
    ghost behaviour = { lent_behaviour R.unread R.buffered R.failures };

    #[inline(always)]
    fn head(&self) -> Option<FactRef<'_>> {
        let held = &*self.held;
        held.fact(self.reader.buffer())
    }

    #[inline(always)]
    fn address(&self) -> Option<&Address> {
        let held = &*self.held;
        held.address()
    }

    #[inline(always)]
    fn spelled(&self) -> &[u8] {
        let held = &*self.held;
        held.spelled(self.reader.buffer())
    }

    #[inline(always)]
    fn advance(&mut self, alloc: Global) -> Result<(), LoadFault> {
        self.reader.next_into(alloc, self.held)?;
        Ok(())
    }
}
