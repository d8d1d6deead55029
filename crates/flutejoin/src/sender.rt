//! Senders on the command line, and in the lines that are printed.
ghost use Rattle.std.specs.Prelude.{◌≡◌, ◌+◌, ◌≤◌, ◌++◌, ℕ, MatchOption, length};
ghost use Rattle.std.specs.Int.{bytes_high_first};
ghost use Rattle.hex.specs.Hex.{encode_lower};
ghost use Rattle.flutejoin.specs.Lines.{source_words};
ghost use Rattle.flutejoin.specs.Sender.{NamesSender, sender_named};

use crate::lines::text::Text;
use byteorder::{BigEndian, ByteOrder};
use flute_parts::Sender;
use hex::FromHex;
use std::net::IpAddr;

/// The sender that `text` names by its address: 32 hexadecimal digits are its 16 bytes, and 8 are
/// the 4 bytes of an IPv4 address (as `Sender::v4` has it). None for any other text. It takes no
/// memory.
pub fn sender_of(text: &str) -> Option<Sender>
    ensures { result ≡ sender_named text.now }
{
    if let Ok(address) = <[u8; 16] as FromHex>::from_hex(text) {
        return Some(Sender::new(BigEndian::read_u128(&address)));
    }
    match <[u8; 4] as FromHex>::from_hex(text) {
        Ok(address) => Some(Sender::v4(BigEndian::read_u32(&address))),
        Err(_) => None,
    }
}

/// The sender that `text` names: by the digits of its address, as `sender_of` takes them, or else
/// by the address as it is written, `10.0.0.1` or `2001:db8::1` (RFC 4291, section 2.2). None for
/// any other text. It takes no memory.
pub fn sender_in(text: &str) -> Option<Sender>
    ensures { MatchOption result ((sender : ℕ) → NamesSender text.now sender → ⊥)
        (NamesSender text.now) }
{
    if let Some(sender) = sender_of(text) {
        return Some(sender);
    }
    match text.parse::<IpAddr>() {
        Ok(IpAddr::V4(address)) => Some(Sender::v4(address.to_bits())),
        Ok(IpAddr::V6(address)) => Some(Sender::new(address.to_bits())),
        Err(_) => None,
    }
}

/// Appends `source`, the 32 digits of the sender's address and a space; nothing if it is 0.
pub fn push_source(text: &mut Text, sender: Sender)
    requires { length text.old + 40 ≤ 512 }
    ensures text { text.new ≡ text.old ++ source_words sender }
    ensures len { length text.new ≤ length text.old + 40 }
{
    if sender.number() != 0 {
        text.push("source ");
        push_address(text, sender);
        text.push(" ");
    }
}

/// Appends the 32 digits of the sender's address.
pub fn push_address(text: &mut Text, sender: Sender)
    requires { length text.old + 32 ≤ 512 }
    ensures text { text.new ≡ text.old ++ encode_lower (bytes_high_first 16 sender) }
    ensures len { length text.new ≡ length text.old + 32 }
{
    let mut digits = [0; 32];
    let address = sender.number().to_be_bytes();
    hex::encode_to_slice(address.as_slice(), &mut digits).unwrap();
    text.push_bytes(&digits);
}
