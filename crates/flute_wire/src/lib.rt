//! Datagrams of FLUTE version 2 (RFC 6726), read and written.
//!
//! A datagram is an LCT header with its extensions (RFC 5651, section 5), and after it the FEC
//! Payload ID and the payload of ALC (RFC 5775, section 4.1). Those with Compact No-Code FEC (RFC
//! 5445, section 3), one encoding symbol in each packet and no content encoding are read; any other
//! is refused, and the [`Refusal`] is the reason. [`write`] writes a datagram in one form of the
//! many that [`read`] takes, and [`carousel`] those of a whole object.
//!
//! A packet contains at most one symbol, and perhaps the transmission information
//! (from `reception_sample`):
//!
//! ```
//! let packet = read(datagram.as_slice())?;
//! let (id, bytes) = packet.symbol().context("a symbol")?;
//! ```
//!
//! Promised: every list of bytes is the datagram of one packet or has one first refusal
//! ([`one_reading`]), [`read`] returns that, and the datagrams of an object contain exactly the
//! object ([`an_object_is_told_by_its_datagrams`]).
#![tactic(auto)]

mod datagram;
mod encoding;
mod extensions;
mod first_word;
mod header;
mod laws;
mod packet;
mod reading;
mod refusal;
mod sending;
mod writing;

pub use datagram::{Datagram, DatagramFault};
pub use laws::{an_object_is_told_by_its_datagrams, one_reading};
pub use packet::Packet;
pub use reading::read;
pub use refusal::{REFUSALS, Refusal};
pub use sending::{CarouselFault, Datagrams, carousel};
pub use writing::{Outgoing, WriteFault, write};
