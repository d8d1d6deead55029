//! Where bytes are put aside in memory.
ghost use Rattle.std.specs.Prelude.{◌≡◌, true};

use crate::owned_source::OwnedSource;
use flute_parts::Failures;
use flutejoin::{Asides, CommandFault};
use flutejoin_replicas::MemoryAside;
use std::alloc::Global;

/// What is put aside is held in memory.
#[derive(Drop)]
pub struct MemoryAsides {
    alloc: Global,
    made: Failures,
}

impl MemoryAsides {
    /// Nothing is put aside yet.
    pub fn new(alloc: Global) -> MemoryAsides
        ensures { ⟦<MemoryAsides as Asides>⟧.tells result ≡ true }
    {
        MemoryAsides {
            alloc,
            made: Failures::none(),
        }
    }
}

impl Asides for MemoryAsides {
    ghost use Rattle.std.specs.Prelude.{true};

    type Aside = MemoryAside;

    type Input = OwnedSource;

    ghost tells = { λ _. true };

    ghost made = { λ a. a.made.count };

    fn aside(&mut self) -> Result<MemoryAside, CommandFault> {
        self.made = self.made.and_one();
        Ok(MemoryAside::new(self.alloc))
    }

    fn again(&mut self, aside: MemoryAside) -> Result<OwnedSource, CommandFault> {
        Ok(OwnedSource::new(aside.into_vec()))
    }
}
