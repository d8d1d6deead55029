//! `InfoListWork`: the work of `info --list`, over an open journal and list.
ghost use Rattle.flutejoin.specs.Lines.{entries_line};
ghost use Rattle.flutejoin_commands.specs.Works.{AddListReadFails, AddsListRead, most_of};

use crate::work::Work;
use flute_parts::{Sink, Source};
use flutejoin::{
    ANY_OBJECTS, ANY_SESSIONS, ANY_SYMBOLS, CommandFault, MAX_ENTRIES, MAX_OBJECTS, MAX_SESSIONS,
    MAX_SYMBOLS, Report, info_list_to,
};
use flutejoin_line::Limit;
use std::alloc::Global;

/// Adds the information of a list of objects to a journal.
#[derive(Drop)]
pub struct InfoListWork<R> {
    pub alloc: Global,
    pub limit: Limit,
    /// What the journal is read of.
    pub source: R,
    /// What the list is read of.
    pub list: R,
}

impl<R: Source + Drop> Work for InfoListWork<R> {
    type Answer = u64;

    ghost writes = { λ w. AddsListRead (R.unread w.source) (R.unread w.list) };

    ghost fails = { λ w. AddListReadFails (most_of w.limit) (R.unread w.source)
        (R.unread w.list) };

    ghost tells = { λ _. entries_line };

    fn write<W: Sink>(&mut self, sink: &mut W) -> Result<(u64, Report), CommandFault> {
        let source = &mut self.source;
        let list = &mut self.list;
        let entries = match self.limit {
            Limit::AnySize => info_list_to::<ANY_SESSIONS, ANY_OBJECTS, ANY_SYMBOLS, _, _>(
                self.alloc, source, list, sink,
            )?,
            Limit::Shelf => info_list_to::<MAX_SESSIONS, MAX_OBJECTS, MAX_SYMBOLS, _, _>(
                self.alloc, source, list, sink,
            )?,
        };
        if entries > MAX_ENTRIES {
            return Err(CommandFault::Full);
        }
        let mut lines = Report::new();
        lines.push_count("entries", entries);
        Ok((entries, lines))
    }
}
