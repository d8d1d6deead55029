//! One stream as number 0, and further ones after it.

use crate::streams::Streams;
use crate::streams::either::Either;
use crate::streams::stream::Stream;
use flute_journal::LoadFault;
use flute_parts::{Address, FactRef};
use std::alloc::Global;

/// How many of the others are taken.
const MOST: usize = 65_535;

/// A stream, and then others. Of these the first 65,535 are taken: the prover does not know that
/// the number of any streams and one fit a `usize`.
#[derive(Drop)]
pub struct Chained<'a, A, G> {
    /// The stream with the number 0.
    pub first: &'a mut A,
    /// Their numbers begin with 1.
    pub others: G,
}

impl<'a, A: Stream, G: Streams> Streams for Chained<'a, A, G> {
    ghost use Rattle.std.specs.Prelude.{[], ◌∷◌};
    ghost use Rattle.flute_streams.specs.Chains.{chained, taken};
    ghost use Rattle.flute_streams.specs.Eithers.{either_behaviour};

    type Stream = Either<A, G::Stream>;

    ghost behaviour = { either_behaviour A.behaviour G.behaviour };

    ghost streams = { λ s. chained s.first.now (taken (G.streams s.others)) };

    ghost names = { λ s. s.first.ghost_name ∷ G.names s.others };

    #[inline(always)]
    fn count(&self) -> usize {
        self.others.count().min(MOST) + 1
    }

    #[inline(always)]
    fn head(&self, number: usize) -> Option<FactRef<'_>> {
        if number == 0 {
            (*self.first).head()
        } else {
            self.others.head(number - 1)
        }
    }

    #[inline(always)]
    fn address(&self, number: usize) -> Option<&Address> {
        if number == 0 {
            (*self.first).address()
        } else {
            self.others.address(number - 1)
        }
    }

    #[inline(always)]
    fn spelled(&self, number: usize) -> &[u8] {
        if number == 0 {
            (*self.first).spelled()
        } else {
            self.others.spelled(number - 1)
        }
    }

    #[inline(always)]
    fn advance(&mut self, number: usize, alloc: Global) -> Result<(), LoadFault> {
        if number == 0 {
            self.first.advance(alloc)
        } else {
            self.others.advance(number - 1, alloc)
        }
    }
}
