//! The entry of a journal that is held until the next is read.
ghost use Rattle.std.specs.Prelude.{◌≡◌, ℕ, List, drop, option_copied};
ghost use Rattle.std.specs.Io.KnownBytes.{Consumes};
ghost use Rattle.flute_parts.specs.Addresses.{fact_of};
ghost use Rattle.flute_parts.specs.declared.fact.Fact.{Fact};
ghost use Rattle.flute_journal.specs.HeldEntries.{fact_held, fact_in, address_of, size_of};
ghost use Rattle.flute_journal.specs.HeldEntries.{spelled_in};
ghost use Rattle.flute_journal.specs.declared.readers.held_entry.HeldEntry.TheVariants as held;

use flute_parts::{Address, Bytes, Fact, FactRef, Info, Part, Source};
use std::alloc::Global;
use std::mem;

// How many bytes of a symbol's entry stand before the symbol, in version 2.
const HEAD_LEN: usize = 44;

/// The entry of a journal that is held until the next is read.
#[derive(Drop)]
pub enum HeldEntry {
    /// None is held.
    Nothing,
    /// This one is.
    Entry {
        /// The address of its fact.
        address: Address,
        /// What it says of that address.
        value: HeldValue,
    },
}

/// What an entry that is held says of its address.
#[derive(Drop)]
pub enum HeldValue {
    /// The transmission information.
    Info(Info),
    /// Two different values came.
    Conflict,
    /// An encoding symbol, whose bytes have memory of their own.
    Symbol(Bytes),
    /// An encoding symbol whose entry lies at the front of its source's buffer, as version 2 spells
    /// it, in so many bytes. It is taken from the source once it is let go of.
    InBuffer(usize),
}

impl HeldEntry {
    /// The entry of a fact, which has memory of its own.
    pub fn of(fact: Fact) -> HeldEntry
        ensures fact { (buffer : List ℕ) → fact_held buffer result ≡ Some fact }
        ensures own { size_of result ≡ 0 }
    {
        let address = fact.address();
        let value = match fact {
            Fact::Info { info, .. } => HeldValue::Info(info),
            Fact::InfoConflict { .. } | Fact::SymbolConflict { .. } => HeldValue::Conflict,
            Fact::Symbol { bytes, .. } => HeldValue::Symbol(bytes),
        };
        HeldEntry::Entry { address, value }
    }

    /// The fact that is held by a reader whose source's buffer lends these bytes. A value that is
    /// none of its part is a conflict.
    #[inline(always)]
    pub fn fact<'a>(&'a self, buffer: &'a [u8]) -> Option<FactRef<'a>>
        ensures { fact_in result ≡ fact_held buffer.now self.now }
    {
        let HeldEntry::Entry { address, value } = self else {
            return None;
        };
        let key = address.key;
        Some(match (address.part, value) {
            (Part::Info, HeldValue::Info(info)) => FactRef::Info { key, info: *info },
            (Part::Info, _) => FactRef::InfoConflict { key },
            (Part::Symbol(id), HeldValue::Symbol(bytes)) => FactRef::Symbol {
                key,
                id,
                bytes: bytes.as_slice(),
            },
            (Part::Symbol(id), HeldValue::InBuffer(_)) => FactRef::Symbol {
                key,
                id,
                bytes: behind(self.spelled(buffer), HEAD_LEN),
            },
            (Part::Symbol(id), _) => FactRef::SymbolConflict { key, id },
        })
    }

    /// The address of that fact.
    #[inline(always)]
    pub fn address(&self) -> Option<&Address>
        ensures { (buffer : List ℕ)
            → option_copied result ≡ address_of (fact_held buffer self.now) }
    {
        match self {
            HeldEntry::Nothing => None,
            HeldEntry::Entry { address, .. } => Some(address),
        }
    }

    /// The bytes of its entry, as version 2 spells it, if they lie at the front of the buffer: none
    /// if the fact has memory of its own.
    #[inline(always)]
    pub fn spelled<'a>(&self, buffer: &'a [u8]) -> &'a [u8]
        ensures { result.now ≡ spelled_in buffer.now self.now }
    {
        match self {
            HeldEntry::Entry {
                value: HeldValue::InBuffer(size),
                ..
            } => &buffer[..(*size).min(buffer.len())],
            _ => &[],
        }
    }

    /// Lets go of it: its bytes are taken from the source that it was read from. Returns a vector
    /// for the next entry, perhaps with the memory that it had of its own (no clause says which).
    pub fn let_go<R: Source>(&mut self, alloc: Global, source: &mut R) -> Vec<u8>
        ensures nothing { self.new ≡ held.Nothing }
        ensures takes { Consumes (R.unread source.old) (R.unread source.new)
            (spelled_in (R.buffered source.old) self.old) }
        ensures failures { R.failures source.new ≡ R.failures source.old }
    {
        let size = self.spelled(source.buffer()).len();
        source.consume(size);
        match mem::replace(self, HeldEntry::Nothing) {
            HeldEntry::Entry {
                value: HeldValue::Symbol(bytes),
                ..
            } => bytes.into_vec(),
            _ => Vec::new(alloc),
        }
    }
}

// What follows so many bytes.
#[inline(always)]
fn behind(bytes: &[u8], count: usize) -> &[u8]
    ensures { result.now ≡ drop count bytes.now }
{
    &bytes[count.min(bytes.len())..]
}
