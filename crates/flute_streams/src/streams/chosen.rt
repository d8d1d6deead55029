//! A stream without the facts that a choice does not take.
ghost use Rattle.std.specs.Prelude.{◌≡◌};
ghost use Rattle.flute_streams.specs.Streams.{IsNew};
ghost use Rattle.flute_streams.specs.ChosenStreams.{chosen_behaviour};

use crate::choice::Choice;
use crate::streams::stream::Stream;
use flute_journal::LoadFault;
use flute_parts::{Address, FactRef};
use std::alloc::Global;

/// A stream whose facts that are not taken are passed over, and counted.
#[derive(Drop)]
pub struct Chosen<S, C> {
    pub stream: S,
    /// What is taken.
    pub choice: C,
    /// How many facts were passed over.
    pub others: u64,
}

impl<S: Stream, C: Choice> Chosen<S, C> {
    /// Takes this of a new stream. It takes no memory.
    pub fn new(stream: S, choice: C) -> Self
        requires { IsNew S.behaviour stream }
        ensures stream { result.stream ≡ stream }
        ensures choice { result.choice ≡ choice }
        ensures others { result.others ≡ 0 }
        ensures new { IsNew (chosen_behaviour C.takes S.behaviour) result }
        ensures most { (chosen_behaviour C.takes S.behaviour).most result
            ≡ S.behaviour.most stream }
    {
        Chosen {
            stream,
            choice,
            others: 0,
        }
    }
}

impl<S: Stream, C: Choice> Stream for Chosen<S, C> {
    ghost behaviour = { chosen_behaviour C.takes S.behaviour };

    #[inline(always)]
    fn head(&self) -> Option<FactRef<'_>> {
        self.stream.head()
    }

    #[inline(always)]
    fn address(&self) -> Option<&Address> {
        self.stream.address()
    }

    #[inline(always)]
    fn spelled(&self) -> &[u8] {
        self.stream.spelled()
    }

    #[inline(always)]
    fn advance(&mut self, alloc: Global) -> Result<(), LoadFault> {
        self.stream.advance(alloc)?;
        while self.choice.passes_over(&self.stream) {
            self.others = self.others.saturating_add(1);
            self.stream.advance(alloc)?;
        }
        Ok(())
    }
}
