//! An `Asides` without room: nothing can be put aside.
ghost use Rattle.std.specs.Prelude.{◌≡◌, true};

use crate::memory_aside::MemoryAside;
use flute_parts::{Failures, Source};
use flutejoin::{Asides, CommandFault};
use std::marker::PhantomData;

/// Nothing can be put aside: all is held in memory.
#[derive(Drop)]
pub struct NoAsides<R> {
    made: Failures,
    inputs: PhantomData<R>,
}

impl<R: Source + Drop> NoAsides<R> {
    /// Nothing is put aside.
    pub fn new() -> NoAsides<R>
        ensures { ⟦<NoAsides<R> as Asides>⟧.tells result ≡ true }
    {
        NoAsides {
            made: Failures::none(),
            inputs: PhantomData,
        }
    }
}

impl<R: Source + Drop> Asides for NoAsides<R> {
    ghost use Rattle.std.specs.Prelude.{true};

    type Aside = MemoryAside;

    type Input = R;

    ghost tells = { λ _. true };

    ghost made = { λ a. a.made.count };

    fn aside(&mut self) -> Result<MemoryAside, CommandFault> {
        self.made = self.made.and_one();
        Err(CommandFault::OutOfMemory)
    }

    fn again(&mut self, _aside: MemoryAside) -> Result<R, CommandFault> {
        Err(CommandFault::OutOfMemory)
    }
}
