//! The addresses of facts: an object, and its transmission information or one of its symbols.

use crate::key::Key;
use crate::symbol_id::SymbolId;

/// A part of an object. The transmission information is ordered before the symbols.
#[derive(Clone, Copy, Debug, PartialEq, Eq, PartialOrd, Ord)]
pub enum Part {
    /// The transmission information.
    Info,
    /// An encoding symbol.
    Symbol(SymbolId),
}

/// The address of a fact. Addresses are ordered by session, object, and part.
#[derive(Clone, Copy, Debug, PartialEq, Eq, PartialOrd, Ord)]
pub struct Address {
    pub key: Key,
    pub part: Part,
}
