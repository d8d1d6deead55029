//! The bytes of an encoding symbol, which are owned.
ghost use Rattle.std.specs.Prelude.{◌≡◌, ◌⊎◌, None, Some, MatchResult, bytes_eq};
ghost use Rattle.flute_parts.specs.SymbolBytes.{HasSymbolSize, size_fault};

use flute_join::{JoinRefusal, Value};
use std::alloc::Global;
use std::marker::Model;
use thiserror::Error;

/// The most bytes that an encoding symbol has.
const MAX_LEN: usize = 65_535;

/// The bytes of an encoding symbol: 1 to 65,535 of them.
#[derive(Debug, Drop)]
pub struct Bytes {
    octets: Vec<u8>,
}

impl Model for Bytes {
    ghost use Rattle.std.specs.Prelude.{List, ℕ};
    ghost use Rattle.flute_parts.specs.SymbolBytes.{HasSymbolSize};

    ghost Value = { List ℕ };

    ghost view = { λ b. b.octets.items };

    ghost invariant = { λ b. HasSymbolSize b.octets.items };
}

/// Why bytes are no symbol. Their number is looked at first.
#[derive(Clone, Copy, Debug, Error)]
pub enum BytesFault {
    /// There is no byte.
    #[error("Empty")]
    Empty,
    /// There are more than 65,535 bytes.
    #[error("TooLong")]
    TooLong,
    /// There was no memory for a copy.
    #[error("OutOfMemory")]
    OutOfMemory,
}

impl Bytes {
    /// A copy of the bytes.
    ///
    /// # Errors
    ///
    /// `Empty` and `TooLong` for their number, and `OutOfMemory` if there is no
    /// memory for the copy.
    pub fn new(alloc: Global, octets: &[u8]) -> Result<Bytes, BytesFault>
        ensures { MatchResult result
            (λ bytes. (bytes ≡ octets.now) × (size_fault octets.now ≡ None))
            (λ fault. (size_fault octets.now ≡ Some fault)
            ⊎ ((size_fault octets.now ≡ None) × (fault ≡ BytesFault.OutOfMemory))) }
    {
        if let Some(fault) = fault_of(octets) {
            return Err(fault);
        }
        match octets.to_vec(alloc) {
            Ok(octets) => Ok(Bytes { octets }),
            Err(_) => Err(BytesFault::OutOfMemory),
        }
    }

    /// These bytes, which takes no memory. What is refused is dropped.
    ///
    /// # Errors
    ///
    /// `Empty` and `TooLong` for their number, and nothing else.
    pub fn from_vec(octets: Vec<u8>) -> Result<Bytes, BytesFault>
        ensures { MatchResult result
            (λ bytes. (bytes ≡ octets.items) × (size_fault octets.items ≡ None))
            (λ fault. size_fault octets.items ≡ Some fault) }
    {
        if let Some(fault) = fault_of(&octets) {
            return Err(fault);
        }
        Ok(Bytes { octets })
    }

    /// The bytes.
    pub fn as_slice(&self) -> &[u8]
        ensures value { result.now ≡ self.now }
        ensures size { HasSymbolSize self.now }
    {
        &self.octets
    }

    /// The bytes, handed over. It takes no memory.
    pub fn into_vec(self) -> Vec<u8>
        ensures items { result.items ≡ self }
        ensures size { HasSymbolSize self }
    {
        let Bytes { octets } = self;
        octets
    }
}

// Why the bytes are refused for their number, if they are.
fn fault_of(octets: &[u8]) -> Option<BytesFault>
    ensures { result ≡ size_fault octets.now }
{
    if octets.is_empty() {
        return Some(BytesFault::Empty);
    }
    if octets.len() > MAX_LEN {
        return Some(BytesFault::TooLong);
    }
    None
}

impl PartialEq for Bytes {
    ghost eq = { bytes_eq };

    fn eq(&self, other: &Bytes) -> bool {
        self.octets == other.octets
    }

    ghost use Rattle.std.proofs.lemmas.Cmp.{nat_list_eq_equiv};
    ghost use Rattle.std.specs.Cmp.{partial_equiv_from_equiv};

    ghost laws = { partial_equiv_from_equiv nat_list_eq_equiv };
}

impl Eq for Bytes {
    ghost use Rattle.std.proofs.lemmas.Cmp.{nat_list_eq_equiv};

    ghost laws = { nat_list_eq_equiv };
}

impl Value for Bytes {
    ghost use Rattle.flute_parts.specs.Equality.{bytes_same};

    ghost same_where_equal = { bytes_same };

    /// A copy of the bytes. `OutOfMemory` if there is no memory for it.
    fn copy(&self, alloc: Global) -> Result<Bytes, JoinRefusal> {
        match self.octets.to_vec(alloc) {
            Ok(octets) => Ok(Bytes { octets }),
            Err(_) => Err(JoinRefusal::OutOfMemory),
        }
    }
}
