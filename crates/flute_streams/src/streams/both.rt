//! Streams, and then others.
ghost use Rattle.std.specs.Prelude.{◌≡◌, length};
ghost use Rattle.flute_streams.specs.Chains.{taken};

use crate::streams::Streams;
use crate::streams::either::Either;
use flute_journal::LoadFault;
use flute_parts::{Address, FactRef};
use std::alloc::Global;

/// How many of each are taken.
const MOST: usize = 65_535;

/// Streams, and then others. Of each the first 65,535 are taken: the prover does not know that the
/// numbers of any streams fit a `usize` together.
#[derive(Drop)]
pub struct Both<'a, G, H> {
    /// Their numbers begin with 0.
    pub first: &'a mut G,
    /// Their numbers follow.
    pub second: H,
}

impl<'a, G: Streams, H: Streams> Both<'a, G, H> {
    // How many of the first are taken.
    #[inline(always)]
    fn first_count(&self) -> usize
        ensures { result ≡ length (taken (G.streams self.now.first.now)) }
    {
        (*self.first).count().min(MOST)
    }
}

impl<'a, G: Streams, H: Streams> Streams for Both<'a, G, H> {
    ghost use Rattle.std.specs.Prelude.{◌++◌, ◌∷◌};
    ghost use Rattle.flute_streams.specs.Chains.{beside, taken};
    ghost use Rattle.flute_streams.specs.Eithers.{either_behaviour};

    type Stream = Either<G::Stream, H::Stream>;

    ghost behaviour = { either_behaviour G.behaviour H.behaviour };

    ghost streams = { λ s. beside (taken (G.streams s.first.now)) (taken (H.streams s.second)) };

    ghost names = { λ s. H.names s.second ++ s.first.ghost_name ∷ G.names s.first.now };

    #[inline(always)]
    fn count(&self) -> usize {
        self.first_count() + self.second.count().min(MOST)
    }

    #[inline(always)]
    fn head(&self, number: usize) -> Option<FactRef<'_>> {
        let firsts = self.first_count();
        if number < firsts {
            (*self.first).head(number)
        } else {
            self.second.head(number - firsts)
        }
    }

    #[inline(always)]
    fn address(&self, number: usize) -> Option<&Address> {
        let firsts = self.first_count();
        if number < firsts {
            (*self.first).address(number)
        } else {
            self.second.address(number - firsts)
        }
    }

    #[inline(always)]
    fn spelled(&self, number: usize) -> &[u8] {
        let firsts = self.first_count();
        if number < firsts {
            (*self.first).spelled(number)
        } else {
            self.second.spelled(number - firsts)
        }
    }

    #[inline(always)]
    fn advance(&mut self, number: usize, alloc: Global) -> Result<(), LoadFault> {
        let firsts = self.first_count();
        if number < firsts {
            self.first.advance(number, alloc)
        } else {
            self.second.advance(number - firsts, alloc)
        }
    }
}
