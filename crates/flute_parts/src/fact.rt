//! Facts: the value that came for an address, or that two different ones came.
ghost use Rattle.std.specs.Prelude.{◌≡◌};
ghost use Rattle.flute_parts.specs.Addresses.{address, bytes_of, fact_of};

use crate::address::{Address, Part};
use crate::bytes::Bytes;
use crate::info::Info;
use crate::key::Key;
use crate::symbol_id::SymbolId;
use std::alloc::Global;

/// What is known of a part of an object: its one value, or that two different values came.
#[derive(Debug, Drop, PartialEq, Eq)]
pub enum Fact {
    /// The transmission information.
    Info {
        key: Key,
        info: Info,
    },
    /// Two different values of the transmission information came.
    InfoConflict {
        key: Key,
    },
    /// An encoding symbol and its bytes.
    Symbol {
        key: Key,
        id: SymbolId,
        bytes: Bytes,
    },
    /// Two different values of an encoding symbol came.
    SymbolConflict {
        key: Key,
        id: SymbolId,
    },
}

/// A [`Fact`] whose bytes are borrowed.
#[derive(Clone, Copy, Debug, PartialEq, Eq)]
pub enum FactRef<'a> {
    /// The transmission information.
    Info {
        key: Key,
        info: Info,
    },
    /// Two different values of the transmission information came.
    InfoConflict {
        key: Key,
    },
    /// An encoding symbol and its bytes.
    Symbol {
        key: Key,
        id: SymbolId,
        bytes: &'a [u8],
    },
    /// Two different values of an encoding symbol came.
    SymbolConflict {
        key: Key,
        id: SymbolId,
    },
}

impl Fact {
    /// The address of the fact.
    pub fn address(&self) -> Address
        ensures { result ≡ address self.now }
    {
        let (key, part) = match self {
            Fact::Info { key, .. } | Fact::InfoConflict { key } => (*key, Part::Info),
            Fact::Symbol { key, id, .. } | Fact::SymbolConflict { key, id } => (
                *key,
                Part::Symbol(*id),
            ),
        };
        Address { key, part }
    }

    /// The vector of a symbol's bytes, handed over so that its memory can be used again, or a new
    /// one. It takes no memory.
    pub fn into_vec(self, alloc: Global) -> Vec<u8>
        ensures { result.items ≡ bytes_of self }
    {
        match self {
            Fact::Symbol { bytes, .. } => bytes.into_vec(),
            _ => Vec::new(alloc),
        }
    }

    /// The same fact, with its bytes borrowed. It takes no memory.
    pub fn as_ref(&self) -> FactRef<'_>
        ensures { fact_of result ≡ self.now }
    {
        match self {
            Fact::Info { key, info } => FactRef::Info {
                key: *key,
                info: *info,
            },
            Fact::InfoConflict { key } => FactRef::InfoConflict { key: *key },
            Fact::Symbol { key, id, bytes } => FactRef::Symbol {
                key: *key,
                id: *id,
                bytes: bytes.as_slice(),
            },
            Fact::SymbolConflict { key, id } => FactRef::SymbolConflict { key: *key, id: *id },
        }
    }
}

impl FactRef<'_> {
    /// The address of the fact.
    pub fn address(&self) -> Address
        ensures { result ≡ address (fact_of self.now) }
    {
        let (key, part) = match *self {
            FactRef::Info { key, .. } | FactRef::InfoConflict { key } => (key, Part::Info),
            FactRef::Symbol { key, id, .. } | FactRef::SymbolConflict { key, id } => (
                key,
                Part::Symbol(id),
            ),
        };
        Address { key, part }
    }
}
