//! The held symbols of an object one after another, of which the next may be looked at.
ghost use Rattle.std.specs.Prelude.{◌≡◌, drop};
ghost use Rattle.flute_store.specs.PeekableSymbols.{ShowsFirst};

use crate::held_symbol::HeldSymbol;
use flute_parts::SymbolId;
use std::collections::btree_map;
use std::marker::Model;

/// The held symbols that are left, the first of which can be looked at.
#[derive(Drop)]
pub struct PeekableSymbols<'a> {
    first: Option<(&'a SymbolId, &'a HeldSymbol)>,
    rest: btree_map::Iter<'a, SymbolId, HeldSymbol>,
}

impl<'a> Model for PeekableSymbols<'a> {
    ghost use Rattle.std.specs.Prelude.{List, ℕ};
    ghost use Rattle.flute_join.specs.declared.cell.Cell.{Cell};
    ghost use Rattle.flute_parts.specs.declared.symbol_id.SymbolId.{SymbolId};

    ghost Value = { List (SymbolId × Cell (List ℕ)) };

    ghost use Rattle.flute_store.specs.PeekableSymbols.{entries, AreLast};

    ghost view = { λ h. entries h.first h.rest };

    ghost invariant = { λ h. AreLast h.first h.rest };
}

impl<'a> PeekableSymbols<'a> {
    /// All of these.
    pub fn new(symbols: btree_map::Iter<'a, SymbolId, HeldSymbol>) -> PeekableSymbols<'a>
        ensures { result ≡ symbols.entry }
    {
        let mut rest = symbols;
        let first = rest.next();
        PeekableSymbols { first, rest }
    }

    /// The first one that is left.
    pub fn first(&self) -> Option<(SymbolId, &'a HeldSymbol)>
        ensures { ShowsFirst self.now result }
    {
        match self.first {
            Some((id, cell)) => Some((*id, cell)),
            None => None,
        }
    }

    /// Passes the first one that is left, if any is.
    pub fn pass(&mut self)
        ensures { self.new ≡ drop 1 self.old }
    {
        self.first = self.rest.next();
    }
}
