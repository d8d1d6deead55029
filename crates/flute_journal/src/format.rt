//! How the header, the entries and the end of a journal are spelled. Nothing outside this module
//! knows an entry's bytes.
ghost use Rattle.std.specs.Prelude.{◌≡◌, ◌≤◌, false, MatchOption};
ghost use Rattle.flute_journal.specs.Faults.{is_kind};
ghost use Rattle.flute_journal.specs.Parsing.{byte_of, head_size};

mod decode;
mod encode;
pub mod number;
mod version;

pub use decode::{
    check_end, check_header, check_opening, names_file, next_symbol_in, parse, symbol_in,
};
pub use encode::{HeadBytes, put_head};
use flute_parts::{Fact, Key, SymbolId};
pub use version::Version;

/// The bytes of the header that is written: `FLJN`, and version 2.
pub const HEADER: [u8; 6] = *b"FLJN\x00\x02";

/// The byte that begins the end.
pub const END: u8 = 255;

/// The most bytes that follow the kind of an entry, up to those of a symbol.
pub const LONGEST: usize = 49;

/// What an entry says.
#[derive(Clone, Copy)]
pub enum Kind {
    /// The transmission information.
    Info,
    /// Two different pieces of transmission information are known.
    InfoConflict,
    /// An encoding symbol.
    Symbol,
    /// Two different values of an encoding symbol are known.
    SymbolConflict,
}

/// What an entry says up to the bytes of its symbol.
#[derive(Drop)]
pub enum EntryHead {
    /// All of it.
    Whole(Fact),
    /// A symbol, and how many bytes of it follow.
    Symbol { key: Key, id: SymbolId, length: u16 },
}

impl Kind {
    /// The kind whose number is this byte.
    pub fn from_byte(byte: u8) -> Option<Kind>
        ensures { MatchOption result (is_kind byte ≡ false) (λ kind. byte ≡ byte_of kind) }
    {
        match byte {
            1 => Some(Kind::Info),
            2 => Some(Kind::InfoConflict),
            3 => Some(Kind::Symbol),
            4 => Some(Kind::SymbolConflict),
            _ => None,
        }
    }

    /// How many bytes follow the kind in a journal of this version, up to those of a symbol.
    pub fn head_size(self, version: Version) -> usize
        ensures size { result ≡ head_size version self }
        ensures most { result ≤ 49 }
    {
        let size = match self {
            Kind::Info => 33,
            Kind::InfoConflict => 21,
            Kind::Symbol => 27,
            Kind::SymbolConflict => 25,
        };
        version.sender_size() + size
    }
}
