//! About how much memory held facts take, which `--memory` bounds.
ghost use Rattle.std.specs.Prelude.{◌≡◌, ◌-◌, ◌^◌, min};
ghost use Rattle.flute_parts.specs.Addresses.{fact_of};
ghost use Rattle.flutejoin.specs.HeldSizes.{begun_size, fact_size, held_size};

use flute_parts::{FactRef, Key};
use flute_store::Store;

/// How many bytes a fact takes beside those of its symbol.
pub(crate) const FACT: u64 = 128;

/// How many an object takes beside its facts.
pub(crate) const OBJECT: u64 = 512;

/// How many a session takes beside its objects.
pub(crate) const SESSION: u64 = 1_200;

/// About how many bytes of memory the facts of a store take, at most.
#[derive(Drop)]
pub(crate) struct HeldSize {
    pub(crate) bytes: u64,
    /// The object of the datagram that was taken last.
    last: Option<Key>,
}

impl HeldSize {
    /// The size of no fact.
    pub(crate) fn none() -> HeldSize {
        HeldSize {
            bytes: 0,
            last: None,
        }
    }

    /// Counts a datagram of so many bytes that is taken, and has so many facts of this object. What
    /// came before may be counted again.
    pub(crate) fn grow(&mut self, key: Key, facts: u64, datagram: usize) {
        self.bytes = self
            .bytes
            .saturating_add(begun_bytes(&self.last, &key))
            .saturating_add(FACT.saturating_mul(facts))
            .saturating_add(datagram as u64);
        self.last = Some(key);
    }
}

/// About how many bytes the facts of the store take.
pub(crate) fn bytes_of<const SESSIONS: u32, const OBJECTS: u32, const SYMBOLS: u32>(
    store: &Store<SESSIONS, OBJECTS, SYMBOLS>,
) -> u64
    ensures counted { result ≡ min (held_size store.now) (2 ^ 64 - 1) }
{
    let mut bytes: u64 = 0;
    let mut last = None;
    for fact in store.walk() {
        let key = fact.address().key;
        bytes = bytes
            .saturating_add(begun_bytes(&last, &key))
            .saturating_add(fact_bytes(&fact));
        last = Some(key);
    }
    bytes
}

// How many bytes more than itself a fact of this object takes after one of the last.
#[inline(always)]
fn begun_bytes(last: &Option<Key>, key: &Key) -> u64
    ensures { result ≡ begun_size last.now key.now }
{
    match last {
        Some(last) if last.session == key.session => {
            if last.object == key.object { 0 } else { OBJECT }
        }
        _ => OBJECT + SESSION,
    }
}

// How many it takes itself.
#[inline(always)]
fn fact_bytes(fact: &FactRef<'_>) -> u64
    ensures { result ≡ min (fact_size (fact_of fact.now)) (2 ^ 64 - 1) }
{
    match fact {
        FactRef::Symbol { bytes, .. } => FACT.saturating_add(bytes.len() as u64),
        FactRef::Info { .. } | FactRef::InfoConflict { .. } | FactRef::SymbolConflict { .. } => {
            FACT
        }
    }
}
