//! `InfoWork`: the work of the command `info`, over an open journal.
ghost use Rattle.flutejoin.specs.Lines.{entries_line};
ghost use Rattle.flutejoin_commands.specs.Works.{AddsInformation, AddFails, most_of};

use crate::work::Work;
use flute_parts::{Info, Key, Sink, Source};
use flutejoin::{
    ANY_OBJECTS, ANY_SESSIONS, ANY_SYMBOLS, CommandFault, MAX_ENTRIES, MAX_OBJECTS, MAX_SESSIONS,
    MAX_SYMBOLS, Report, info_to,
};
use flutejoin_line::Limit;
use std::alloc::Global;

/// Adds the information of an object to a journal.
#[derive(Drop)]
pub struct InfoWork<R> {
    pub alloc: Global,
    pub limit: Limit,
    pub key: Key,
    pub info: Info,
    /// What the journal is read of.
    pub source: R,
}

impl<R: Source + Drop> Work for InfoWork<R> {
    type Answer = u64;

    ghost writes = { λ w. AddsInformation (R.unread w.source) w.key w.info };

    ghost fails = { λ w. AddFails (most_of w.limit) (R.unread w.source) w.key
        w.info };

    ghost tells = { λ _. entries_line };

    fn write<W: Sink>(&mut self, sink: &mut W) -> Result<(u64, Report), CommandFault> {
        let source = &mut self.source;
        let (key, info) = (self.key, self.info);
        let entries = match self.limit {
            Limit::AnySize => info_to::<ANY_SESSIONS, ANY_OBJECTS, ANY_SYMBOLS, _, _>(
                self.alloc, source, key, info, sink,
            )?,
            Limit::Shelf => info_to::<MAX_SESSIONS, MAX_OBJECTS, MAX_SYMBOLS, _, _>(
                self.alloc, source, key, info, sink,
            )?,
        };
        if entries > MAX_ENTRIES {
            return Err(CommandFault::Full);
        }
        let mut lines = Report::new();
        lines.push_count("entries", entries);
        Ok((entries, lines))
    }
}
