//! A datagram: at most 65,535 bytes that are owned.

use std::alloc::Global;
use std::marker::Model;
use thiserror::Error;

/// The most bytes that a datagram has, as 16 bits count them.
pub const MAX_LEN: usize = 65_535;

/// Why bytes are not kept as a datagram. Their number is checked first. Shown by its name.
#[derive(Clone, Copy, Debug, Error)]
pub enum DatagramFault {
    /// There are more than 65,535 bytes.
    #[error("TooLong")]
    TooLong,
    /// There was no memory for a copy.
    #[error("OutOfMemory")]
    OutOfMemory,
}

/// A datagram: 0 to 65,535 bytes, whatever they contain. [`read`](crate::read) reads them.
#[derive(Drop)]
pub struct Datagram {
    pub(crate) bytes: Vec<u8>,
}

impl Model for Datagram {
    ghost use Rattle.std.specs.Prelude.{ℕ, List, ◌≤◌, length};

    ghost Value = { List ℕ };

    ghost view = { λ d. d.bytes.items };

    ghost invariant = { λ d. length d.bytes.items ≤ 65535 };
}

impl Datagram {
    ghost use Rattle.std.specs.Prelude.{◌≡◌, ◌↔◌, ◌<◌, ◌≤◌, length, IfOk, IfErr, Err};
    ghost use Rattle.flute_wire.specs.declared.datagram.DatagramFault.TheVariants as faults;

    /// A copy of the bytes.
    ///
    /// # Errors
    ///
    /// `TooLong` for more than 65,535 bytes, and else `OutOfMemory` if there is no
    /// memory for the copy.
    pub fn new(alloc: Global, bytes: &[u8]) -> Result<Datagram, DatagramFault>
        ensures made { IfOk result (λ d. d ≡ bytes.now) }
        ensures too_long { (result ≡ Err faults.TooLong) ↔ (65535 < length bytes.now) }
    {
        if bytes.len() > MAX_LEN {
            return Err(DatagramFault::TooLong);
        }
        match bytes.to_vec(alloc) {
            Ok(bytes) => Ok(Datagram { bytes }),
            Err(_) => Err(DatagramFault::OutOfMemory),
        }
    }

    /// These bytes, which takes no memory. What is refused is dropped.
    ///
    /// # Errors
    ///
    /// `TooLong` for more than 65,535 bytes, and nothing else.
    pub fn from_vec(bytes: Vec<u8>) -> Result<Datagram, DatagramFault>
        ensures made { IfOk result (λ d. d ≡ bytes.items) }
        ensures too_long { (result ≡ Err faults.TooLong) ↔ (65535 < length bytes.items) }
        ensures no_other { IfErr result (λ fault. fault ≡ faults.TooLong) }
    {
        if bytes.len() > MAX_LEN {
            return Err(DatagramFault::TooLong);
        }
        Ok(Datagram { bytes })
    }

    /// The bytes, at most 65,535.
    pub fn as_slice(&self) -> &[u8]
        ensures bytes { result.now ≡ self.now }
        ensures limit { length self.now ≤ 65535 }
    {
        &self.bytes
    }

    /// The bytes, handed over. It takes no memory.
    pub fn into_vec(self) -> Vec<u8>
        ensures items { result.items ≡ self }
        ensures limit { length self ≤ 65535 }
    {
        let Datagram { bytes } = self;
        bytes
    }
}
