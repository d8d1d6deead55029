//! A stream of one fact alone.
ghost use Rattle.std.specs.Prelude.{◌≡◌, ◌∷◌, []};
ghost use Rattle.flute_store.specs.Walk.{IsSized};
ghost use Rattle.flute_streams.specs.Streams.{option_list, IsNew};
ghost use Rattle.flute_streams.specs.FactStreams.{fact_behaviour};

use crate::streams::stream::Stream;
use flute_journal::{HeldEntry, LoadFault};
use flute_parts::{Address, Fact, FactRef};
use std::alloc::Global;

/// The stream of one fact.
#[derive(Drop)]
pub struct FactStream {
    pub next: Option<Fact>,
    pub held: HeldEntry,
}

impl FactStream {
    /// The stream of this fact, whose symbol, if it is one, has 1 to 65,535
    /// bytes. It takes no memory.
    pub fn new(fact: Fact) -> FactStream
        requires { IsSized fact }
        ensures facts { option_list result.next ≡ fact ∷ [] }
        ensures new { IsNew fact_behaviour result }
        ensures most { fact_behaviour.most result ≡ 1 }
    {
        FactStream {
            next: Some(fact),
            held: HeldEntry::Nothing,
        }
    }
}

impl Stream for FactStream {
    ghost behaviour = { fact_behaviour };

    fn head(&self) -> Option<FactRef<'_>> {
        self.held.fact(&[])
    }

    fn address(&self) -> Option<&Address> {
        self.held.address()
    }

    fn spelled(&self) -> &[u8] {
        &[]
    }

    fn advance(&mut self, _alloc: Global) -> Result<(), LoadFault> {
        let held = match self.next.take() {
            Some(fact) => HeldEntry::of(fact),
            None => HeldEntry::Nothing,
        };
        self.held = held;
        Ok(())
    }
}
