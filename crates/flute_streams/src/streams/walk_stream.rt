//! A stream of the facts of a store.
ghost use Rattle.std.specs.Prelude.{◌≡◌, None, length};
ghost use Rattle.flute_parts.specs.Facts.{IsRising};
ghost use Rattle.flute_streams.specs.Streams.{IsNew, address_of};
ghost use Rattle.flute_streams.specs.Listed.{listed_behaviour};
ghost use Rattle.flute_streams.specs.WalkStreams.{held_fact, held_place};

use crate::streams::stream::Stream;
use flute_journal::LoadFault;
use flute_parts::{Address, FactRef};
use flute_store::{HasObjects, Walk};
use std::alloc::Global;

/// The stream of the facts of a store in memory.
#[derive(Drop)]
pub struct WalkStream<'a, S: HasObjects + 'a> {
    walk: Walk<'a, S>,
    /// A fact and its address, which is lent.
    held: Option<(Address, FactRef<'a>)>,
    ghost placed: { held_place held ≡ address_of (held_fact held) },
}

impl<'a, S: HasObjects + 'a> WalkStream<'a, S> {
    /// The stream of what a walk over a store has left. It takes no memory.
    pub fn new(walk: Walk<'a, S>) -> WalkStream<'a, S>
        requires { IsRising walk }
        ensures new { IsNew (listed_behaviour (λ s. held_fact s.held) (λ s. s.walk)
            (λ _. Unit {0})) result }
        ensures facts { result.walk ≡ walk.entry }
        ensures most { (listed_behaviour (λ s. held_fact s.held) (λ s. s.walk)
            (λ _. Unit {0})).most result ≡ length walk.entry }
    {
        WalkStream { walk, held: None }
    }
}

impl<'a, S: HasObjects + 'a> Stream for WalkStream<'a, S> {
    ghost behaviour = { listed_behaviour (λ s. held_fact s.held) (λ s. s.walk) (λ _. Unit {0}) };

    #[inline(always)]
    fn head(&self) -> Option<FactRef<'_>> {
        let Some((_, fact)) = &self.held else {
            return None;
        };
        Some(match *fact {
            FactRef::Info { key, info } => FactRef::Info { key, info },
            FactRef::InfoConflict { key } => FactRef::InfoConflict { key },
            FactRef::Symbol { key, id, bytes } => FactRef::Symbol { key, id, bytes },
            FactRef::SymbolConflict { key, id } => FactRef::SymbolConflict { key, id },
        })
    }

    fn address(&self) -> Option<&Address> {
        match &self.held {
            Some((place, _)) => Some(place),
            None => None,
        }
    }

    fn spelled(&self) -> &[u8] {
        &[]
    }

    fn advance(&mut self, _alloc: Global) -> Result<(), LoadFault> {
        self.held = match self.walk.next() {
            Some(fact) => Some((fact.address(), fact)),
            None => None,
        };
        Ok(())
    }
}
