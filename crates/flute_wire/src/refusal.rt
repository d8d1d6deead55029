//! The reasons for which datagrams are refused, in the order in which they apply.

use flute_parts::InfoFault;
use std::error::Error;
use std::fmt;

/// Why a datagram is refused, in the order of the checks: the first that applies is returned. Shown
/// as its number in that order, from 1, and its name, as `4 HeaderLength`; `Information` with the
/// name of its fault after that.
///
/// The header is that of RFC 5651, section 5.
#[derive(Clone, Copy, Debug, PartialEq, Eq)]
pub enum Refusal {
    /// The datagram has more than 65,535 bytes.
    TooLong,
    /// The datagram has fewer than 4 bytes.
    TooShort,
    /// The version of LCT is not 1.
    LctVersion,
    /// The header's length, HDR_LEN, is less than its fields before the extensions take.
    HeaderLength,
    /// The datagram has fewer bytes than its header's length, HDR_LEN.
    HeaderCut,
    /// The Transport Session Identifier has no bits.
    NoTsi,
    /// The Transport Object Identifier has no bits.
    NoToi,
    /// The codepoint, here the FEC Encoding ID, is not 0: that of Compact No-Code FEC
    /// (RFC 5445, section 3).
    Codepoint,
    /// A header extension has no words, or passes the header's end (RFC 5651, section 5.2).
    ExtensionLength,
    /// EXT_FTI, EXT_FDT or EXT_CENC is in the header twice, whatever the TOI.
    Repeated,
    /// EXT_FTI does not have four words (RFC 5775, section 4.2; RFC 5445, section 3.2.2.2).
    FtiLength,
    /// The numbers of EXT_FTI are not valid transmission information, for this reason. The transfer
    /// length is never too large: EXT_FTI has 48 bits for it.
    Information(InfoFault),
    /// The TOI is 0, so this is an FDT Instance, and there is no EXT_FDT (RFC 6726, section 3.4.1).
    NoInstance,
    /// The TOI is 0, and EXT_FDT is not of FLUTE version 2.
    FluteVersion,
    /// EXT_CENC names a content encoding, whatever the TOI (RFC 6726, section 3.4.3).
    ContentEncoded,
    /// 1 to 3 bytes follow the header: less than an FEC Payload ID (RFC 5445, section 3.2.1).
    PayloadIdCut,
}

/// Every refusal, in the order of the checks.
pub const REFUSALS: [Refusal; 20] = [
    Refusal::TooLong,
    Refusal::TooShort,
    Refusal::LctVersion,
    Refusal::HeaderLength,
    Refusal::HeaderCut,
    Refusal::NoTsi,
    Refusal::NoToi,
    Refusal::Codepoint,
    Refusal::ExtensionLength,
    Refusal::Repeated,
    Refusal::FtiLength,
    Refusal::Information(InfoFault::Length),
    Refusal::Information(InfoFault::SymbolLength),
    Refusal::Information(InfoFault::BlockLength),
    Refusal::Information(InfoFault::TooManyBlocks),
    Refusal::Information(InfoFault::BlockTooLong),
    Refusal::NoInstance,
    Refusal::FluteVersion,
    Refusal::ContentEncoded,
    Refusal::PayloadIdCut,
];

impl Refusal {
    ghost use Rattle.std.specs.Prelude.{◌≡◌, ◌≤◌, length};
    ghost use Rattle.flute_wire.specs.RefusalWords.{place, refusal_words};

    /// Its place in [`REFUSALS`], from 0.
    pub fn place(self) -> usize
        ensures { result ≡ place self }
    {
        match self {
            Refusal::TooLong => 0,
            Refusal::TooShort => 1,
            Refusal::LctVersion => 2,
            Refusal::HeaderLength => 3,
            Refusal::HeaderCut => 4,
            Refusal::NoTsi => 5,
            Refusal::NoToi => 6,
            Refusal::Codepoint => 7,
            Refusal::ExtensionLength => 8,
            Refusal::Repeated => 9,
            Refusal::FtiLength => 10,
            Refusal::Information(InfoFault::Length) => 11,
            Refusal::Information(InfoFault::SymbolLength) => 12,
            Refusal::Information(InfoFault::BlockLength) => 13,
            Refusal::Information(InfoFault::TooManyBlocks) => 14,
            Refusal::Information(InfoFault::BlockTooLong) => 15,
            Refusal::NoInstance => 16,
            Refusal::FluteVersion => 17,
            Refusal::ContentEncoded => 18,
            Refusal::PayloadIdCut => 19,
        }
    }

    /// Its number and its name, as it is shown.
    pub fn words(self) -> &'static str
        ensures words { result.now ≡ refusal_words self }
        ensures few { length result.now ≤ 28 }
    {
        match self {
            Refusal::TooLong => "1 TooLong",
            Refusal::TooShort => "2 TooShort",
            Refusal::LctVersion => "3 LctVersion",
            Refusal::HeaderLength => "4 HeaderLength",
            Refusal::HeaderCut => "5 HeaderCut",
            Refusal::NoTsi => "6 NoTsi",
            Refusal::NoToi => "7 NoToi",
            Refusal::Codepoint => "8 Codepoint",
            Refusal::ExtensionLength => "9 ExtensionLength",
            Refusal::Repeated => "10 Repeated",
            Refusal::FtiLength => "11 FtiLength",
            Refusal::Information(InfoFault::Length) => "12 Information Length",
            Refusal::Information(InfoFault::SymbolLength) => "12 Information SymbolLength",
            Refusal::Information(InfoFault::BlockLength) => "12 Information BlockLength",
            Refusal::Information(InfoFault::TooManyBlocks) => "12 Information TooManyBlocks",
            Refusal::Information(InfoFault::BlockTooLong) => "12 Information BlockTooLong",
            Refusal::NoInstance => "13 NoInstance",
            Refusal::FluteVersion => "14 FluteVersion",
            Refusal::ContentEncoded => "15 ContentEncoded",
            Refusal::PayloadIdCut => "16 PayloadIdCut",
        }
    }
}

impl fmt::Display for Refusal {
    ghost use Rattle.std.specs.Prelude.{Some};
    ghost use Rattle.flute_wire.specs.RefusalWords.{refusal_words};

    ghost output = { λ r. Some (refusal_words r) };

    fn fmt<W: fmt::Write>(&self, f: &mut fmt::Formatter<W>) -> fmt::Result {
        f.write_str(self.words())
    }
}

impl Error for Refusal {}
