//! The names of encoding symbols: a source block number and an ESI.

use flute_join::MapKey;

/// An encoding symbol of an object, by its source block number and its encoding symbol ID
/// (RFC 5445, section 3.2.1). Symbols are ordered by block, then by ID.
#[derive(Clone, Copy, Debug, PartialEq, Eq, PartialOrd, Ord)]
pub struct SymbolId {
    /// The source block number.
    pub sbn: u16,
    /// The encoding symbol ID.
    pub esi: u16,
}

impl MapKey for SymbolId {
    ghost use Rattle.flute_parts.specs.Equality.{symbol_id_place};

    ghost same_where_equal = { symbol_id_place };
}
