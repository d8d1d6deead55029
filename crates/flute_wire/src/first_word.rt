//! The first word of the LCT header: version, flags, and the lengths of the fields after it.

ghost use Rattle.std.specs.Prelude.{◌≡◌};
ghost use Rattle.flute_wire.specs.Header.{fields};

/// The fields that are read of the first 32-bit word of an LCT header: they give the lengths of the
/// header's other fields (RFC 5651, section 5.1).
#[derive(Drop)]
pub struct FirstWord {
    /// The version of LCT, V.
    pub version: u8,
    /// C: the congestion control information has one 32-bit word more than this.
    pub congestion_words: u8,
    /// S: the 32-bit words of the Transport Session Identifier.
    pub tsi_words: u8,
    /// O: the 32-bit words of the Transport Object Identifier.
    pub toi_words: u8,
    /// H: the TSI and the TOI have 16 bits more each.
    pub half_word: u8,
    /// HDR_LEN: the 32-bit words of the header, its extensions included.
    pub header_words: u8,
    /// The codepoint, CP.
    pub codepoint: u8,
}

impl FirstWord {
    pub fn new(bits: u32) -> Self
        ensures { result ≡ fields bits }
    {
        FirstWord {
            version: (bits >> 28) as u8,
            congestion_words: (bits >> 26 & 3) as u8,
            tsi_words: (bits >> 23 & 1) as u8,
            toi_words: (bits >> 21 & 3) as u8,
            half_word: (bits >> 20 & 1) as u8,
            header_words: (bits >> 8 & 255) as u8,
            codepoint: (bits & 255) as u8,
        }
    }
}
