//! `read`: reads a datagram as a packet, or finds the first reason to refuse it.

ghost use Rattle.std.specs.Prelude.{◌≡◌, ◌<◌, ◌≤◌, ◌⊎◌, ◌^◌};
ghost use Rattle.std.specs.Prelude.{◌==◌, [], length, Option, Some, None, IfOk, IfErr, OnOk};
ghost use Rattle.std.specs.Prelude.{OnErr, IfSome, IsSomeAnd, Ok, Err, ◌↔◌, if◌then◌else◌};
ghost use Rattle.std.specs.Option.{option_copied, option_map};
ghost use Rattle.flute_parts.specs.Information.{info_fault};
ghost use Rattle.flute_wire.specs.Extensions.{fti_information, fdt_version, fdt_instance};
ghost use Rattle.flute_wire.specs.Content.{Content};
ghost use Rattle.flute_wire.specs.Datagram.{Spells, tail_symbol};
ghost use Rattle.flute_wire.specs.Refusals.{Refuses};
ghost use Rattle.flute_wire.specs.declared.refusal.Refusal.{Refusal};
ghost use Rattle.flute_wire.specs.Walk.{RefusesFti, RefusesFdt};

use crate::extensions::Known;
use crate::header::Header;
use crate::packet::Packet;
use crate::refusal::Refusal;
use byteorder::{BigEndian, ByteOrder};
use flute_parts::{Info, SymbolId};

/// The length of EXT_FTI's body: four words without the byte of the type.
const FTI_LEN: usize = 15;

/// The transmission information of EXT_FTI, if that is there. After HEL come the transfer length,
/// two bytes that are reserved, the encoding symbol length and the maximum source block length
/// (RFC 5445, section 3.2.2.2).
///
/// # Errors
///
/// `FtiLength` if EXT_FTI does not have four words, and else `Information` if its
/// numbers are not valid.
#[tactic(auto, using(crate::proofs::BigEndian::number_read))]
fn information(fti: Option<&[u8]>) -> Result<Option<Info>, Refusal>
    ensures taken { OnOk result (IfSome (option_copied fti.entry)
        (λ body. (length body ≡ 15) × (info_fault (fti_information body) ≡ None))) }
    ensures value { IfOk result (λ info. info
        ≡ option_map fti_information (option_copied fti.entry)) }
    ensures refused { IfErr result (λ r. RefusesFti (option_copied fti.entry) r) }
{
    let Some(body) = fti else {
        return Ok(None);
    };
    if body.len() != FTI_LEN {
        return Err(Refusal::FtiLength);
    }
    let length = BigEndian::read_u48(&body[1..7]);
    let symbol = BigEndian::read_u16(&body[9..11]);
    let block = BigEndian::read_u32(&body[11..15]);
    match Info::new(length, symbol, block) {
        Ok(info) => Ok(Some(info)),
        Err(fault) => Err(Refusal::Information(fault)),
    }
}

/// The FDT Instance ID, from EXT_FDT, of a packet with TOI 0. With another TOI, EXT_FDT is skipped.
/// Its 24 bits are FLUTE's version, of 4, and the ID, of 20 (RFC 6726, section 3.4.1).
///
/// # Errors
///
/// `NoInstance` if the TOI is 0 and there is no EXT_FDT, and `FluteVersion` if it
/// is not of version 2.
#[tactic(auto, using(crate::proofs::BigEndian::number_read))]
fn instance(toi: u128, fdt: Option<&[u8]>) -> Result<Option<u32>, Refusal>
    requires { IfSome (option_copied fdt) (λ body. length body ≡ 3) }
    ensures taken { OnOk result
        (toi ≡ 0 → IsSomeAnd (option_copied fdt.entry) (λ body. fdt_version body ≡ 2)) }
    ensures value { IfOk result
        (λ i. i ≡ (if toi == 0 then option_map fdt_instance (option_copied fdt.entry) else None)) }
    ensures fits { IfOk result (λ i. IfSome i (λ n. n < 2 ^ 20)) }
    ensures refused { IfErr result (λ r. RefusesFdt toi (option_copied fdt.entry) r) }
{
    if toi != 0 {
        return Ok(None);
    }
    let Some(body) = fdt else {
        return Err(Refusal::NoInstance);
    };
    let fields = BigEndian::read_u24(body);
    if fields >> 20 != 2 {
        return Err(Refusal::FluteVersion);
    }
    Ok(Some(fields % (1 << 20)))
}

/// The symbol after the header, if there is one: the FEC Payload ID and at least one byte
/// (RFC 5445, section 3.2.1).
///
/// # Errors
///
/// `PayloadIdCut` if 1 to 3 bytes follow the header.
#[tactic(auto, using(crate::proofs::BigEndian::number_read))]
fn symbol(tail: &[u8]) -> Result<Option<(SymbolId, &[u8])>, Refusal>
    ensures value { IfOk result (λ s. option_map (λ s. (s.0, s.1.now)) s ≡ tail_symbol tail.now) }
    ensures taken { OnOk result ((tail.now ≡ []) ⊎ (4 ≤ length tail.now)) }
    ensures cut { OnErr result ((0 < length tail.now) × (length tail.now < 4)) }
    ensures refusal { IfErr result (λ r. r ≡ Refusal.PayloadIdCut) }
{
    if tail.is_empty() {
        return Ok(None);
    }
    if tail.len() < 4 {
        return Err(Refusal::PayloadIdCut);
    }
    if tail.len() == 4 {
        return Ok(None);
    }
    let id = SymbolId {
        sbn: BigEndian::read_u16(tail),
        esi: BigEndian::read_u16(&tail[2..4]),
    };
    Ok(Some((id, &tail[4..])))
}

/// Reads a datagram as a packet of FLUTE version 2: the LCT header with its extensions
/// (RFC 5651, section 5), the FEC Payload ID and one encoding symbol (RFC 5775, section 4.1;
/// RFC 5445, section 3.2.1).
///
/// It takes no memory: the symbol is a part of the datagram. The result depends on these bytes
/// alone. Congestion control information, reserved bits, the close flags and extensions other than
/// EXT_FTI, EXT_FDT and EXT_CENC are ignored.
///
/// # Errors
///
/// The first [`Refusal`] that applies, in the order of that list.
pub fn read(datagram: &[u8]) -> Result<Packet<'_>, Refusal>
    ensures spelled { IfOk result (λ p. Spells datagram.now p) }
    ensures refused { IfErr result (λ r. Refuses datagram.now r) }
    ensures packet { (p : Content) → (result ≡ Ok p) ↔ Spells datagram.now p }
    ensures refusal { (r : Refusal) → (result ≡ Err r) ↔ Refuses datagram.now r }
{
    let header = Header::read(datagram)?;
    let known = Known::read(header.extensions)?;
    let info = information(known.fti)?;
    let instance = instance(header.toi, known.fdt)?;
    // The first byte of EXT_CENC is the content encoding (RFC 6726, section 3.4.3).
    match known.cenc {
        Some(body) if body[0] != 0 => return Err(Refusal::ContentEncoded),
        _ => {}
    }
    let symbol = symbol(header.tail)?;
    Ok(Packet {
        tsi: header.tsi,
        toi: header.toi,
        instance,
        info,
        symbol,
    })
}
