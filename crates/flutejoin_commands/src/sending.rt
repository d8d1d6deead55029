//! `SendWork`: the work of the command `carousel`, over an open content.
ghost use Rattle.flutejoin_commands.specs.Works.{SendReadFails, SendsRead, datagrams_line};

use crate::work::Work;
use flute_parts::{Key, Sink, Source};
use flutejoin::{CommandFault, MAX_ENTRIES, Report, send_to};
use std::alloc::Global;

/// Writes the datagrams of an object whose content is all that a source has, `size` bytes.
#[derive(Drop)]
pub struct SendWork<R> {
    pub alloc: Global,
    pub key: Key,
    pub symbol: u16,
    pub block: u32,
    pub size: u64,
    pub source: R,
}

impl<R: Source + Drop> Work for SendWork<R> {
    type Answer = u64;

    ghost writes = { λ w. SendsRead (R.unread w.source) w.key w.symbol w.block };

    ghost fails = { λ w. SendReadFails (R.unread w.source) w.key w.symbol w.block };

    ghost tells = { λ _. datagrams_line };

    fn write<W: Sink>(&mut self, sink: &mut W) -> Result<(u64, Report), CommandFault> {
        let datagrams = send_to(
            self.alloc,
            &self.key,
            self.symbol,
            self.block,
            self.size,
            &mut self.source,
            sink,
        )?;
        if datagrams > MAX_ENTRIES {
            return Err(CommandFault::Full);
        }
        let mut lines = Report::new();
        lines.push_count("datagrams", datagrams);
        Ok((datagrams, lines))
    }
}
