//! An object in a store: its transmission information, and its symbols by their IDs.
ghost use Rattle.std.specs.Prelude.{◌≡◌, ◌<◌, length, OnOk, OnErr, IsOk};
ghost use Rattle.flute_store.specs.Update.{update_symbols, HasSizes, IsHeldSymbol};
ghost use Rattle.flute_store.specs.WellFormed.{AreSymbols};
ghost use Rattle.flute_store.specs.ObjectJoin.{
  object_join,
  ObjectOver,
  ObjectNeedsMemory,
  object_join_laws,
  symbols_join,
};

use crate::held_symbol::HeldSymbol;
use crate::update::{SymbolUpdate, Update};
use flute_join::{Cell, Join, JoinMap, JoinRefusal};
use flute_parts::{Info, SymbolId};
use std::alloc::Global;

/// An object: its transmission information and its symbols.
#[derive(Drop)]
pub struct Object<const SYMBOLS: u32> {
    pub info: Cell<Info>,
    pub symbols: JoinMap<SymbolId, HeldSymbol, SYMBOLS>,
}

impl<const SYMBOLS: u32> Join for Object<SYMBOLS> {
    ghost joined = { object_join };

    ghost over = { ObjectOver };

    ghost needs_memory = { ObjectNeedsMemory };

    ghost use Rattle.flute_store.specs.WellFormed.{IsObject};

    ghost sound = { IsObject };

    ghost join_laws = { object_join_laws SYMBOLS };

    fn join_from(&mut self, alloc: Global, other: &Self) -> Result<(), JoinRefusal> {
        self.info.join_from(alloc, &other.info)?;
        self.symbols.join_from(alloc, &other.symbols)
    }

    fn copy(&self, alloc: Global) -> Result<Self, JoinRefusal> {
        Ok(Object {
            info: self.info.copy(alloc)?,
            symbols: self.symbols.copy(alloc)?,
        })
    }
}

// Joins an update of a symbol, if there is one. After a refusal the symbols are unchanged.
#[inline(always)]
fn join_symbols<const SYMBOLS: u32>(
    symbols: &mut JoinMap<SymbolId, HeldSymbol, SYMBOLS>,
    alloc: Global,
    update: Option<(SymbolId, SymbolUpdate<'_>)>,
) -> Result<(), JoinRefusal>
    requires symbols { AreSymbols SYMBOLS symbols.old }
    requires sizes { HasSizes update }
    ensures ok { OnOk result
        (symbols.new ≡ symbols_join symbols.old (update_symbols update.entry)) }
    ensures err { OnErr result (symbols.new ≡ symbols.old) }
    ensures full { result ≡ Err JoinRefusal.Full
        → SYMBOLS < length (symbols_join symbols.old (update_symbols update.entry)) }
    ensures held { IsHeldSymbol symbols.old update.entry → IsOk result }
    ensures room { (result ≡ Err JoinRefusal.Full → ⊥)
        → AreSymbols SYMBOLS (symbols_join symbols.old (update_symbols update.entry)) }
{
    match update {
        Some((id, update)) => symbols.join_with(alloc, id, update),
        None => Ok(()),
    }
}

impl<const SYMBOLS: u32> Object<SYMBOLS> {
    ghost use Rattle.flute_store.specs.Update.{update_object, IsUpdate};
    ghost use Rattle.flute_store.specs.WellFormed.{IsObject, AreSymbols};

    /// Joins an update of the object. After a refusal it is unchanged.
    #[inline(always)]
    pub fn join_update(&mut self, alloc: Global, update: &Update<'_>) -> Result<(), JoinRefusal>
        requires symbols { AreSymbols SYMBOLS self.old.symbols }
        requires update { IsUpdate update.now }
        ensures ok { OnOk result (self.new ≡ object_join self.old (update_object update.now)) }
        ensures err { OnErr result (self.new ≡ self.old) }
        ensures full { result ≡ Err JoinRefusal.Full
            → SYMBOLS < length (object_join self.old (update_object update.now)).symbols }
        ensures held { IsHeldSymbol self.old.symbols update.now.symbol → IsOk result }
        ensures room { (result ≡ Err JoinRefusal.Full → ⊥)
            → IsObject (object_join self.old (update_object update.now)) }
    {
        join_symbols(&mut self.symbols, alloc, update.symbol)?;
        match update.info {
            Cell::Absent => {}
            Cell::One(info) => self.info.put(info),
            Cell::Conflict => self.info = Cell::Conflict,
        }
        Ok(())
    }
}
