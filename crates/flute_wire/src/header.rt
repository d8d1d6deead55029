//! The LCT header before its extensions (RFC 5651, section 5.1).

ghost use Rattle.std.specs.Prelude.{◌≡◌, ◌<◌, ◌^◌, IfOk, IfErr, OnOk};
ghost use Rattle.flute_wire.specs.Header.{tsi_in, toi_in, extension_area, after_header};
ghost use Rattle.flute_wire.specs.Refusals.{PassesUpTo, Refuses};

use crate::datagram::MAX_LEN;
use crate::first_word::FirstWord;
use crate::refusal::Refusal;
use byteorder::{BigEndian, ByteOrder};

/// What is in the header, and what follows it.
#[derive(Drop)]
pub struct Header<'a> {
    /// The Transport Session Identifier, below 2^48.
    pub tsi: u64,
    /// The Transport Object Identifier, below 2^112.
    pub toi: u128,
    /// The bytes of the header's extensions.
    pub extensions: &'a [u8],
    /// The bytes after the header: the FEC Payload ID and the payload.
    pub tail: &'a [u8],
}

impl<'a> Header<'a> {
    /// The header of a datagram, up to its extensions.
    ///
    /// # Errors
    ///
    /// The first of `TooLong` to `Codepoint` that applies.
    #[tactic(auto, using(crate::proofs::BigEndian::number_read))]
    pub fn read(datagram: &'a [u8]) -> Result<Self, Refusal>
        ensures tsi { IfOk result (λ h. h.tsi ≡ tsi_in datagram.now) }
        ensures tsi_fits { IfOk result (λ h. h.tsi < 2 ^ 48) }
        ensures toi { IfOk result (λ h. h.toi ≡ toi_in datagram.now) }
        ensures toi_fits { IfOk result (λ h. h.toi < 2 ^ 112) }
        ensures extensions { IfOk result (λ h. h.extensions.now ≡ extension_area datagram.now) }
        ensures tail { IfOk result (λ h. h.tail.now ≡ after_header datagram.now) }
        ensures passes { OnOk result (PassesUpTo 9 datagram.now) }
        ensures refused { IfErr result (λ r. Refuses datagram.now r) }
    {
        if datagram.len() > MAX_LEN {
            return Err(Refusal::TooLong);
        }
        if datagram.len() < 4 {
            return Err(Refusal::TooShort);
        }
        let word = FirstWord::new(BigEndian::read_u32(datagram));
        if word.version != 1 {
            return Err(Refusal::LctVersion);
        }
        let half_word = 2 * usize::from(word.half_word);
        let tsi_len = 4 * usize::from(word.tsi_words) + half_word;
        let toi_len = 4 * usize::from(word.toi_words) + half_word;
        let tsi_at = 8 + 4 * usize::from(word.congestion_words);
        let toi_at = tsi_at + tsi_len;
        let extensions_at = toi_at + toi_len;
        let header_len = 4 * usize::from(word.header_words);
        if header_len < extensions_at {
            return Err(Refusal::HeaderLength);
        }
        if datagram.len() < header_len {
            return Err(Refusal::HeaderCut);
        }
        if tsi_len == 0 {
            return Err(Refusal::NoTsi);
        }
        if toi_len == 0 {
            return Err(Refusal::NoToi);
        }
        if word.codepoint != 0 {
            return Err(Refusal::Codepoint);
        }
        Ok(Header {
            tsi: BigEndian::read_uint(&datagram[tsi_at..], tsi_len),
            toi: BigEndian::read_uint128(&datagram[toi_at..], toi_len),
            extensions: &datagram[extensions_at..header_len],
            tail: &datagram[header_len..],
        })
    }
}
