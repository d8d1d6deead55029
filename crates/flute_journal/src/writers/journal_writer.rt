//! `JournalWriter`: writes a journal entry by entry, as far as its sink takes it.
ghost use Rattle.std.specs.Prelude.{◌≡◌, ◌+◌, false, Some};
ghost use Rattle.flute_parts.specs.Addresses.{fact_of};
ghost use Rattle.flute_store.specs.Walk.{IsSized};
ghost use Rattle.flute_journal.specs.Format.{header, entry, end};
ghost use Rattle.flute_parts.specs.Ranges.{IsFact};
ghost use Rattle.flute_parts.specs.declared.fact.Fact.{Fact};
ghost use Rattle.flute_journal.specs.JournalWriters.{Puts};

use crate::format::{END, HEADER, HeadBytes, put_head};
use arrayvec::ArrayVec;
use flute_parts::{FactRef, Sink};

/// Writes a journal into a sink, until that fails. What is written after a failure is dropped.
#[derive(Drop)]
pub struct JournalWriter<'a, W> {
    pub sink: &'a mut W,
    /// Whether the sink has failed.
    pub failed: bool,
    /// The bytes of the key of a symbol that was written before: the next one is mostly of the same
    /// object.
    key: [u8; 37],
}

impl<'a, W: Sink> JournalWriter<'a, W> {
    /// Nothing is written yet.
    pub fn new(sink: &'a mut W) -> JournalWriter<'a, W>
        ensures same { result.sink.ghost_name ≡ sink.entry.ghost_name }
        ensures now { result.sink.now ≡ sink.old }
        ensures failed { result.failed ≡ false }
    {
        JournalWriter {
            sink,
            failed: false,
            key: [0; 37],
        }
    }

    /// Writes the magic number and the version.
    pub fn header(&mut self)
        ensures { Puts W.written W.failures header self.old self.new }
    {
        self.put(&HEADER);
    }

    /// Writes the entry of a fact, of which these are the bytes as version 2 spells it.
    #[inline(always)]
    pub fn spelled(&mut self, bytes: &[u8])
        requires { (f : Fact) × IsFact f × (bytes.now ≡ entry f) }
        ensures { Puts W.written W.failures bytes.now self.old self.new }
    {
        self.put(bytes);
    }

    /// Writes the entry of a fact.
    pub fn entry(&mut self, fact: &FactRef<'_>)
        requires sized { IsSized (fact_of fact.now) }
        ensures valid { IsFact (fact_of fact.now) }
        ensures puts { Puts W.written W.failures (entry (fact_of fact.now)) self.old self.new }
    {
        let mut head = HeadBytes::new();
        put_head(&mut head, &mut self.key, fact);
        self.put(head.as_slice());
        if let FactRef::Symbol { bytes, .. } = *fact {
            self.put(bytes);
        }
    }

    /// Writes the end of a journal of so many entries, which the caller counts.
    pub fn end(&mut self, count: u64)
        ensures { Puts W.written W.failures (end count) self.old self.new }
    {
        let mut bytes = ArrayVec::<u8, 9>::new();
        bytes.push(END);
        let _fits = bytes.try_extend_from_slice(&count.to_be_bytes());
        self.put(bytes.as_slice());
    }

    // Writes bytes, unless the sink has failed.
    #[inline(always)]
    fn put(&mut self, bytes: &[u8])
        ensures { Puts W.written W.failures bytes.now self.old self.new }
    {
        if !self.failed {
            self.failed = self.sink.write_all(bytes).is_err();
        }
    }
}
