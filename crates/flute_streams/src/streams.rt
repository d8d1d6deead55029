//! Several streams that are read together, each by its number.
ghost use Rattle.std.specs.Prelude.{◌≡◌, ◌<◌, List, Some, length, option_copied, slice_get};
ghost use Rattle.std.specs.Borrow.{GName};
ghost use Rattle.flute_streams.specs.Streams.{Advances, Behaviour, fact_in, address_of};

pub(crate) mod both;
pub(crate) mod chained;
pub(crate) mod chosen;
pub(crate) mod either;
pub(crate) mod fact_stream;
pub(crate) mod lent_stream;
pub(crate) mod minus;
pub(crate) mod owned_journal_stream;
pub(crate) mod stream;
pub(crate) mod walk_stream;

use crate::streams::stream::Stream;
use flute_journal::LoadFault;
use flute_parts::{Address, FactRef};
use std::alloc::Global;

/// Streams with numbers, from 0.
pub trait Streams {
    type Stream;

    // What each of them gives, as `Stream::behaviour` says it.
    ghost behaviour: { Behaviour Self.Stream };

    ghost streams: { Self → List Self.Stream };

    // The references by which they are lent.
    ghost names: { Self → List GName };

    /// How many there are.
    fn count(&self) -> usize
        ensures { result ≡ length (streams self.now) };

    /// What the stream with this number holds.
    fn head(&self, number: usize) -> Option<FactRef<'_>>
        requires { number < length (streams self.now) }
        ensures { (s : Self.Stream) → slice_get (streams self.now) number ≡ Some s
            → fact_in result ≡ behaviour.held s };

    /// The address of that fact.
    fn address(&self, number: usize) -> Option<&Address>
        requires { number < length (streams self.now) }
        ensures { (s : Self.Stream) → slice_get (streams self.now) number ≡ Some s
            → option_copied result ≡ address_of (behaviour.held s) };

    /// The bytes of that fact's entry, if they lie in memory: else none.
    fn spelled(&self, number: usize) -> &[u8]
        requires { number < length (streams self.now) }
        ensures { (s : Self.Stream) → slice_get (streams self.now) number ≡ Some s
            → result.now ≡ behaviour.spelled s };

    /// Advances the stream with this number.
    ///
    /// # Errors
    ///
    /// The fault of the stream.
    fn advance(&mut self, number: usize, alloc: Global) -> Result<(), LoadFault>
        requires { number < length (streams self.old) }
        ensures advances { Advances behaviour number (streams self.old)
            (streams self.new) result }
        ensures names { names self.new ≡ names self.old };
}

/// One stream, which is lent. It has the number 0.
impl<S: Stream> Streams for &mut S {
    ghost use Rattle.std.specs.Prelude.{[], ◌∷◌};

    type Stream = S;

    ghost behaviour = { S.behaviour };

    ghost streams = { λ s. s.now ∷ [] };

    ghost names = { λ s. s.ghost_name ∷ [] };

    #[inline(always)]
    fn count(&self) -> usize {
        1
    }

    #[inline(always)]
    fn head(&self, _number: usize) -> Option<FactRef<'_>> {
        (**self).head()
    }

    #[inline(always)]
    fn address(&self, _number: usize) -> Option<&Address> {
        (**self).address()
    }

    #[inline(always)]
    fn spelled(&self, _number: usize) -> &[u8] {
        (**self).spelled()
    }

    #[inline(always)]
    fn advance(&mut self, _number: usize, alloc: Global) -> Result<(), LoadFault> {
        (**self).advance(alloc)
    }
}

/// The streams of a slice, which is lent.
impl<S: Stream> Streams for &mut [S] {
    ghost use Rattle.std.specs.Prelude.{[], ◌∷◌};

    type Stream = S;

    ghost behaviour = { S.behaviour };

    ghost streams = { λ s. s.now };

    ghost names = { λ s. s.ghost_name ∷ [] };

    #[inline(always)]
    fn count(&self) -> usize {
        self.len()
    }

    #[inline(always)]
    fn head(&self, number: usize) -> Option<FactRef<'_>> {
        let streams = &**self;
        streams[number].head()
    }

    #[inline(always)]
    fn address(&self, number: usize) -> Option<&Address> {
        let streams = &**self;
        streams[number].address()
    }

    #[inline(always)]
    fn spelled(&self, number: usize) -> &[u8] {
        let streams = &**self;
        streams[number].spelled()
    }

    #[inline(always)]
    fn advance(&mut self, number: usize, alloc: Global) -> Result<(), LoadFault> {
        self[number].advance(alloc)
    }
}
