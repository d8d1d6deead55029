//! The trait `Stream`: facts that come in strictly rising order of their addresses.
ghost use Rattle.std.specs.Prelude.{◌≡◌, OnOk, IfErr, option_copied};
ghost use Rattle.flute_streams.specs.Streams.{Behaviour, fact_in, address_of, GoesOn, StopsAt};

use flute_journal::LoadFault;
use flute_parts::{Address, FactRef};
use std::alloc::Global;

/// Facts that come in strictly rising order of their addresses. A stream holds the next of them.
pub trait Stream {
    // What it gives, how it ends, and what is read for that.
    ghost behaviour: { Behaviour Self };

    /// The fact that it holds. None before it was first advanced, and once no fact was left.
    fn head(&self) -> Option<FactRef<'_>>
        ensures { fact_in result ≡ behaviour.held self.now };

    /// The address of that fact.
    fn address(&self) -> Option<&Address>
        ensures { option_copied result ≡ address_of (behaviour.held self.now) };

    /// The bytes of that fact's entry, as version 2 of a journal spells it, if they lie in memory:
    /// else none.
    fn spelled(&self) -> &[u8]
        ensures { result.now ≡ behaviour.spelled self.now };

    /// Lets go of the fact that it holds, and takes the next.
    ///
    /// # Errors
    ///
    /// Why no next fact could be read. It holds none then.
    fn advance(&mut self, alloc: Global) -> Result<(), LoadFault>
        ensures goes_on { OnOk result (GoesOn behaviour self.old self.new) }
        ensures stops { IfErr result (StopsAt behaviour self.old self.new) };
}
