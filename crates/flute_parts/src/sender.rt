//! The names of senders: their addresses, of 128 bits.

use std::marker::Model;

/// A sender, named by its address: 16 bytes, as a number. Each number below 2^128 names one.
///
/// Senders are ordered by that number.
#[derive(Clone, Copy, Debug, PartialEq, Eq, PartialOrd, Ord)]
pub struct Sender {
    address: u128,
}

impl Model for Sender {
    ghost use Rattle.std.specs.Prelude.{ℕ};
    ghost use Rattle.flute_parts.specs.Session.{IsSender};

    ghost Value = { ℕ };

    ghost view = { λ s. s.address };

    ghost invariant = { λ s. IsSender s.address };

    ghost inverse = { λ n. record { address = n } };
}

impl Sender {
    ghost use Rattle.std.specs.Prelude.{◌≡◌, ◌+◌, ◌*◌, ◌^◌};
    ghost use Rattle.flute_parts.specs.Session.{IsSender};

    /// The sender with this address, as an IPv6 address read as a number. It takes no memory.
    pub fn new(address: u128) -> Sender
        ensures { result ≡ address }
    {
        Sender { address }
    }

    /// The sender with this IPv4 address, as the IPv4-mapped address
    /// `::ffff:a.b.c.d` (RFC 4291, section 2.5.5.2): 65535 * 2^32 + `address`. It takes no memory.
    pub fn v4(address: u32) -> Sender
        ensures { result ≡ 65535 * 2 ^ 32 + address }
    {
        Sender {
            address: (65_535 << 32) + u128::from(address),
        }
    }

    /// The address as a number, below 2^128.
    pub fn number(&self) -> u128
        ensures value { result ≡ self.now }
        ensures bits { IsSender result }
    {
        self.address
    }
}
