//! `MergeWork`: the work of the command `merge`, over two open journals.
ghost use Rattle.flutejoin.specs.Lines.{entries_line};
ghost use Rattle.flutejoin_commands.specs.Works.{MergeReadFails, MergesRead};

use crate::work::Work;
use flute_parts::{Sink, Source};
use flutejoin::{CommandFault, MAX_ENTRIES, Report, merge_to};
use std::alloc::Global;

/// Merges two journals.
#[derive(Drop)]
pub struct MergeWork<A, B> {
    pub alloc: Global,
    pub first: A,
    pub second: B,
}

impl<A: Source + Drop, B: Source + Drop> Work for MergeWork<A, B> {
    type Answer = u64;

    // Its journals are not read if there is no output.
    ghost writes = { λ w. MergesRead (A.unread w.first) (B.unread w.second) };

    ghost fails = { λ w. MergeReadFails (A.unread w.first) (B.unread w.second) };

    ghost tells = { λ _. entries_line };

    fn write<W: Sink>(&mut self, sink: &mut W) -> Result<(u64, Report), CommandFault> {
        let entries = merge_to(self.alloc, &mut self.first, &mut self.second, sink)?;
        if entries > MAX_ENTRIES {
            return Err(CommandFault::Full);
        }
        let mut lines = Report::new();
        lines.push_count("entries", entries);
        Ok((entries, lines))
    }
}
