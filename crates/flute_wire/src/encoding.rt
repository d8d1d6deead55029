//! The bytes of a datagram that is written, part by part.

ghost use Rattle.std.specs.Prelude.{◌≡◌, ◌++◌, None, IfOk, OnOk};
ghost use Rattle.std.specs.Option.{option_map};
ghost use Rattle.flute_wire.specs.Outgoing.{said};
ghost use Rattle.flute_wire.specs.Reading.{facts};
ghost use Rattle.flute_wire.specs.Writing.{symbol_bytes};
ghost use Rattle.flute_wire.specs.Writing.{IsWritten, outgoing_facts, words_to_write, write_fault};
ghost use Rattle.flute_wire.specs.Encoding.{HasFittingId};

use crate::datagram::Datagram;
use crate::extensions::{EXT_FDT, EXT_FTI};
use crate::writing::Outgoing;
use byteorder::{BigEndian, ByteOrder};
use flute_parts::{Info, Key, SymbolId};
use std::alloc::{AllocError, Global};

/// The first half of the first word: LCT version 1, and fields of 32 bits for the congestion
/// control information, the TSI and the TOI (RFC 5651, section 5.1).
const FIRST_BYTES: [u8; 2] = [0x10, 0xA0];

/// FLUTE's version 2, above the 20 bits of the FDT Instance ID (RFC 6726, section 3.4.1).
const FLUTE_VERSION: u32 = 2 << 20;

/// The 32-bit words of EXT_FTI (RFC 5445, section 3.2.2.2).
const FTI_WORDS: u8 = 4;

/// The bytes of the FEC Payload ID (RFC 5445, section 3.2.1).
pub const PAYLOAD_ID_LEN: usize = 4;

/// Appends the FEC Payload ID and the bytes of the symbol, if there is one.
fn put_symbol(out: &mut Vec<u8>, symbol: Option<(SymbolId, &[u8])>) -> Result<(), AllocError>
    ensures bytes { OnOk result (out.new.items
        ≡ out.old.items ++ symbol_bytes (option_map (λ s. (s.0, s.1.now)) symbol.entry)) }
    ensures fits { OnOk result (HasFittingId (option_map (λ s. (s.0, s.1.now)) symbol.entry)) }
{
    if let Some((id, bytes)) = symbol {
        let mut payload_id = [0; PAYLOAD_ID_LEN];
        BigEndian::write_u16(&mut payload_id[..2], id.sbn);
        BigEndian::write_u16(&mut payload_id[2..], id.esi);
        out.extend_from_slice(&payload_id)?;
        out.extend_from_slice(bytes)?;
    }
    Ok(())
}

/// The datagram of a packet that can be written, with this many words in its header.
pub fn encoded(alloc: Global, outgoing: &Outgoing<'_>, words: u8) -> Result<Datagram, AllocError>
    requires words { words ≡ words_to_write (said outgoing.now) }
    requires sound { write_fault (said outgoing.now) ≡ None }
    ensures sound { OnOk result (write_fault (said outgoing.now) ≡ None) }
    ensures written { IfOk result (λ datagram. IsWritten datagram (said outgoing.now)) }
    ensures facts { IfOk result (λ datagram. facts outgoing.now.key.session.sender datagram
        ≡ outgoing_facts outgoing.now.key outgoing.now.info (said outgoing.now).symbol) }
{
    let payload_len = match outgoing.symbol {
        Some((_, bytes)) => PAYLOAD_ID_LEN + bytes.len(),
        None => 0,
    };
    // The header up to its extensions: the congestion control information is 0.
    let mut fixed = [0; 16];
    fixed[..2].copy_from_slice(&FIRST_BYTES);
    fixed[2] = words;
    BigEndian::write_u32(&mut fixed[8..12], outgoing.key.session.tsi() as u32);
    BigEndian::write_u32(&mut fixed[12..], outgoing.key.object.toi() as u32);
    let mut bytes = Vec::with_capacity(alloc, 4 * usize::from(words) + payload_len)?;
    bytes.extend_from_slice(&fixed)?;
    if let Some(instance) = outgoing.key.object.instance() {
        let mut fdt = [EXT_FDT, 0, 0, 0];
        BigEndian::write_u24(&mut fdt[1..], FLUTE_VERSION + instance);
        bytes.extend_from_slice(&fdt)?;
    }
    if let Some(info) = outgoing.info {
        // Two bytes of EXT_FTI are reserved, and 0.
        let mut fti = [0; 16];
        fti[0] = EXT_FTI;
        fti[1] = FTI_WORDS;
        BigEndian::write_u48(&mut fti[2..8], info.length());
        BigEndian::write_u16(&mut fti[10..12], info.symbol());
        BigEndian::write_u32(&mut fti[12..], info.block());
        bytes.extend_from_slice(&fti)?;
    }
    put_symbol(&mut bytes, outgoing.symbol)?;
    Ok(Datagram { bytes })
}
