//! `ExtractWork`: the work of the command `extract`, over an open journal.
ghost use Rattle.std.specs.Prelude.{◌≡◌, ◌+◌, OnOk, IfOk, IfErr};
ghost use Rattle.flutejoin.specs.declared.command_fault.CommandFault.TheVariants.{CannotWrite};
ghost use Rattle.flutejoin_commands.specs.Works.{WritesObject, ExtractFails, bytes_line, most_of};

use crate::work::Work;
use flute_parts::{Key, Sink, Source};
use flutejoin::{
    ANY_OBJECTS, ANY_SESSIONS, ANY_SYMBOLS, CommandFault, MAX_OBJECTS, MAX_SESSIONS, MAX_SYMBOLS,
    Report, extract_to,
};
use flutejoin_line::Limit;
use std::alloc::Global;

/// Writes an object that is whole.
#[derive(Drop)]
pub struct ExtractWork<R> {
    pub alloc: Global,
    pub limit: Limit,
    pub key: Key,
    /// What the journal is read of.
    pub source: R,
}

impl<R: Source + Drop> ExtractWork<R> {
    // Writes it, and returns the number of its bytes.
    fn extract<W: Sink>(&mut self, sink: &mut W) -> Result<u64, CommandFault>
        ensures written { IfOk result (λ n. WritesObject (most_of self.old.limit)
            (R.unread self.old.source) self.old.key n
            (W.written sink.old) (W.written sink.new)) }
        ensures failed { IfErr result (ExtractFails (most_of self.old.limit)
            (R.unread self.old.source) self.old.key) }
        ensures quiet { OnOk result (W.failures sink.new ≡ W.failures sink.old) }
        ensures cause { IfErr result (λ fault. fault ≡ CannotWrite
            → W.failures sink.new ≡ W.failures sink.old + 1) }
    {
        let source = &mut self.source;
        match self.limit {
            Limit::AnySize => extract_to::<ANY_SESSIONS, ANY_OBJECTS, ANY_SYMBOLS, _, _>(
                self.alloc, source, &self.key, sink,
            ),
            Limit::Shelf => extract_to::<MAX_SESSIONS, MAX_OBJECTS, MAX_SYMBOLS, _, _>(
                self.alloc, source, &self.key, sink,
            ),
        }
    }
}

impl<R: Source + Drop> Work for ExtractWork<R> {
    type Answer = u64;

    ghost writes = { λ w. WritesObject (most_of w.limit) (R.unread w.source) w.key };

    ghost fails = { λ w. ExtractFails (most_of w.limit) (R.unread w.source) w.key };

    ghost tells = { λ _. bytes_line };

    fn write<W: Sink>(&mut self, sink: &mut W) -> Result<(u64, Report), CommandFault> {
        let bytes = self.extract(sink)?;
        let mut lines = Report::new();
        lines.push_count("bytes", bytes);
        Ok((bytes, lines))
    }
}
