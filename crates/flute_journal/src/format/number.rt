//! Numbers in network byte order, as bytes and read from bytes.
ghost use Rattle.std.specs.Prelude.{◌≡◌, ◌<◌, ◌≤◌, ◌^◌, length};
ghost use Rattle.std.specs.List.{AllByRecursion};
ghost use Rattle.flute_parts.specs.BigEndian.{big_endian};
ghost use Rattle.flute_journal.specs.Numbers.{in_bytes};
ghost use Rattle.flute_parts.specs.Ranges.{IsByte};

use byteorder::{BigEndian, ByteOrder};

/// The number that the bytes spell.
#[tactic(auto, using(crate::proofs::Numbers::number_read))]
pub fn number(bytes: &[u8]) -> u128
    requires some { 1 ≤ length bytes.now }
    requires few { length bytes.now ≤ 16 }
    ensures value { result ≡ big_endian bytes.now }
    ensures fits { result < 256 ^ length bytes.now }
{
    BigEndian::read_uint128(bytes, bytes.len())
}

/// The number that fourteen bytes spell, read in two halves: to gather them
/// first would take longer.
pub fn number_of_14(field: &[u8]) -> u128
    requires { length field.now ≡ 14 }
    ensures value { result ≡ big_endian field.now }
    ensures fits { result < 256 ^ 14 }
{
    let (high, low) = field.split_at(6);
    18_446_744_073_709_551_616 * u128::from(BigEndian::read_u48(high))
        + u128::from(BigEndian::read_u64(low))
}

/// The number that two bytes spell: how many bytes follow.
pub fn length_in(field: &[u8]) -> u16
    requires { length field.now ≡ 2 }
    ensures value { result ≡ big_endian field.now }
    ensures spelled { in_bytes 2 result ≡ field.now }
{
    BigEndian::read_u16(field)
}

/// The two bytes that spell how many bytes these are.
#[tactic(auto, using(crate::proofs::Numbers::octets))]
pub fn length_field(bytes: &[u8]) -> [u8; 2]
    requires { length bytes.now < 2 ^ 16 }
    ensures field { result ≡ in_bytes 2 (length bytes.now) }
    ensures octets { AllByRecursion IsByte bytes.now }
{
    (bytes.len() as u16).to_be_bytes()
}
