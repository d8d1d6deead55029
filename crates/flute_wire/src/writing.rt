//! `write`: writes a packet as a datagram.

ghost use Rattle.std.specs.Prelude.{◌≡◌, None, IfOk, IfErr, IfSome, Err};
ghost use Rattle.flute_wire.specs.Outgoing.{said};
ghost use Rattle.flute_wire.specs.Reading.{facts};
ghost use Rattle.flute_wire.specs.Writing.{IsWritten, outgoing_facts, write_fault};
ghost use Rattle.flute_wire.specs.declared.writing.WriteFault.TheVariants as faults;

use crate::datagram::{Datagram, MAX_LEN};
use crate::encoding::{PAYLOAD_ID_LEN, encoded};
use flute_parts::{Info, Key, SymbolId};
use std::alloc::Global;
use thiserror::Error;

/// What a datagram is to contain: an object, its transmission information if that is to be sent,
/// and one symbol with its bytes if there is one.
#[derive(Clone, Copy)]
pub struct Outgoing<'a> {
    /// The session and the object in it.
    pub key: Key,
    /// What EXT_FTI is to contain.
    pub info: Option<Info>,
    /// The source block number and the encoding symbol ID, and the bytes of the
    /// symbol, at least one.
    pub symbol: Option<(SymbolId, &'a [u8])>,
}

/// Why no datagram is written, in the order of the checks: the first that applies is returned.
/// Shown by its name.
#[derive(Clone, Copy, Debug, Error)]
pub enum WriteFault {
    /// The Transport Session Identifier is 2^32 or more.
    #[error("Tsi")]
    Tsi,
    /// The Transport Object Identifier is 2^32 or more.
    #[error("Toi")]
    Toi,
    /// The symbol has no bytes.
    #[error("EmptySymbol")]
    EmptySymbol,
    /// The datagram would have more than 65,535 bytes.
    #[error("TooLong")]
    TooLong,
    /// There was no memory for the datagram.
    #[error("OutOfMemory")]
    OutOfMemory,
}

/// Writes a packet of FLUTE version 2 as a datagram. [`read`](crate::read) returns the same TSI and
/// object, transmission information and symbol, and with the key's sender the same key. The sender
/// is not written.
///
/// There is one form (RFC 5651, section 5.1): a TSI, a TOI and congestion control information of 32
/// bits each, the last of them 0. EXT_FDT follows if the object is an FDT Instance (RFC 6726,
/// section 3.4.1), and then EXT_FTI if there is transmission information (RFC 5775, section 4.2).
/// The FEC Payload ID and the symbol's bytes end the datagram; without a symbol it ends with its
/// header. The symbol's bytes are copied once, into the one piece of memory that is asked for.
///
/// # Errors
///
/// The first [`WriteFault`] that applies, in the order of that list.
pub fn write(alloc: Global, outgoing: &Outgoing<'_>) -> Result<Datagram, WriteFault>
    ensures written { IfOk result (λ datagram. IsWritten datagram (said outgoing.now)) }
    ensures facts { IfOk result (λ datagram. facts outgoing.now.key.session.sender datagram
        ≡ outgoing_facts outgoing.now.key outgoing.now.info (said outgoing.now).symbol) }
    ensures fault { IfSome (write_fault (said outgoing.now)) (λ fault. result ≡ Err fault) }
    ensures memory { IfErr result (λ fault. write_fault (said outgoing.now) ≡ None
        → fault ≡ faults.OutOfMemory) }
{
    if outgoing.key.session.tsi() >= 1 << 32 {
        return Err(WriteFault::Tsi);
    }
    if outgoing.key.object.toi() >= 1 << 32 {
        return Err(WriteFault::Toi);
    }
    let is_instance = outgoing.key.object.instance().is_some();
    let fdt_words = if is_instance { 1 } else { 0 };
    let fti_words = if outgoing.info.is_some() { 4 } else { 0 };
    let words = 4 + fdt_words + fti_words;
    if let Some((_, bytes)) = outgoing.symbol {
        if bytes.is_empty() {
            return Err(WriteFault::EmptySymbol);
        }
        if bytes.len() > MAX_LEN - 4 * usize::from(words) - PAYLOAD_ID_LEN {
            return Err(WriteFault::TooLong);
        }
    }
    match encoded(alloc, outgoing, words) {
        Ok(datagram) => Ok(datagram),
        Err(_) => Err(WriteFault::OutOfMemory),
    }
}
