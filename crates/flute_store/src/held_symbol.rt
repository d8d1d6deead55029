//! What is held of one symbol: its bytes, or a conflict.
ghost use Rattle.std.specs.Prelude.{◌≡◌, MatchOption, bytes_eq};
ghost use Rattle.flute_join.specs.Cell.{cell_join, IsKnown, CellNeedsMemory};
ghost use Rattle.flute_parts.specs.SymbolBytes.{HasSymbolSize};
ghost use Rattle.flute_store.specs.ObjectJoin.{cells};

use crate::update::SymbolUpdate;
use flute_join::{Cell, Join, JoinInto, JoinRefusal};
use std::alloc::Global;
use std::marker::Model;

/// What is held of a symbol: its bytes, 1 to 65,535 of them, or that there were two values.
/// Proofs see it as a cell.
///
/// A symbol has a byte at least, so a conflict is held as no bytes: it takes no tag beside
/// them, and no memory.
#[derive(Drop)]
pub struct HeldSymbol {
    octets: Vec<u8>,
}

impl Model for HeldSymbol {
    ghost use Rattle.std.specs.Prelude.{List, ℕ, ◌≤◌, length};
    ghost use Rattle.flute_join.specs.declared.cell.Cell.{Cell};

    ghost Value = { Cell (List ℕ) };

    ghost use Rattle.flute_store.specs.HeldSymbol.{held_cell};

    ghost view = { λ h. held_cell h.octets.items };

    ghost invariant = { λ h. length h.octets.items ≤ 65535 };
}

impl HeldSymbol {
    /// The bytes. None if there were two values.
    pub fn value(&self) -> Option<&[u8]>
        ensures { MatchOption result
            (self.now ≡ Cell.Conflict)
            (λ bytes. (self.now ≡ Cell.One bytes.now) × HasSymbolSize bytes.now) }
    {
        if self.octets.is_empty() {
            return None;
        }
        Some(&self.octets)
    }

    /// Makes it a conflict, and gives its memory back.
    pub fn set_conflict(&mut self)
        ensures { self.new ≡ Cell.Conflict }
    {
        let alloc = *self.octets.allocator();
        self.octets = Vec::new(alloc);
    }
}

impl Join for HeldSymbol {
    ghost joined = { cell_join bytes_eq };

    // No limit forbids the join of two symbols.
    ghost over = { λ _ _. ⊥ };

    ghost needs_memory = { CellNeedsMemory };

    ghost sound = { IsKnown };

    ghost join_laws = { cells };

    /// Joins what is held of the symbol elsewhere. It takes no memory, and is never refused.
    fn join_from(&mut self, _alloc: Global, other: &Self) -> Result<(), JoinRefusal> {
        if self.octets != other.octets {
            self.set_conflict();
        }
        Ok(())
    }

    fn copy(&self, alloc: Global) -> Result<Self, JoinRefusal> {
        match self.octets.to_vec(alloc) {
            Ok(octets) => Ok(HeldSymbol { octets }),
            Err(_) => Err(JoinRefusal::OutOfMemory),
        }
    }
}

impl JoinInto<HeldSymbol> for SymbolUpdate<'_> {
    ghost use Rattle.flute_store.specs.Update.{update_cell, HasSize};

    ghost value = { update_cell };

    ghost fits = { HasSize };

    fn join_into(&self, held: &mut HeldSymbol) {
        let differs = match (self, held.value()) {
            (SymbolUpdate::Bytes(bytes), Some(value)) => value != *bytes,
            _ => true,
        };
        if differs {
            held.set_conflict();
        }
    }

    /// What is held of the symbol then: a copy of the bytes.
    fn into_value(self, alloc: Global) -> Result<HeldSymbol, JoinRefusal> {
        match self {
            SymbolUpdate::Bytes(bytes) => match bytes.to_vec(alloc) {
                Ok(octets) => Ok(HeldSymbol { octets }),
                Err(_) => Err(JoinRefusal::OutOfMemory),
            },
            SymbolUpdate::Conflict => Ok(HeldSymbol {
                octets: Vec::new(alloc),
            }),
        }
    }
}
