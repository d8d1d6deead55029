//! An update of an object: what one fact or one packet adds to it.
ghost use Rattle.std.specs.Prelude.{◌≡◌, [], ◌∷◌, length, ℕ, IfSome, IfNone};
ghost use Rattle.flute_parts.specs.Addresses.{address};
ghost use Rattle.flute_parts.specs.SymbolBytes.{HasSymbolSize};
ghost use Rattle.flute_parts.specs.declared.key.Key.{Key as Name};
ghost use Rattle.flute_wire.specs.Facts.{key_of, facts_of};
ghost use Rattle.flute_store.specs.Update.{update_facts, IsUpdate};

use flute_join::Cell;
use flute_parts::{Fact, Info, SymbolId};
use flute_wire::Packet;

/// An update of a symbol: its bytes, or that there were two values.
#[derive(Clone, Copy)]
pub enum SymbolUpdate<'a> {
    Bytes(&'a [u8]),
    Conflict,
}

/// An update of an object: of its transmission information, of one of its symbols, or of both.
#[derive(Drop)]
pub struct Update<'a> {
    pub info: Cell<Info>,
    pub symbol: Option<(SymbolId, SymbolUpdate<'a>)>,
}

impl<'a> Update<'a> {
    /// The update of a fact.
    pub fn of_fact(fact: &'a Fact) -> Self
        ensures update { IsUpdate result }
        ensures facts { update_facts (address fact.now).key result ≡ fact.now ∷ [] }
    {
        match fact {
            Fact::Info { info, .. } => Update {
                info: Cell::One(*info),
                symbol: None,
            },
            Fact::InfoConflict { .. } => Update {
                info: Cell::Conflict,
                symbol: None,
            },
            Fact::Symbol { id, bytes, .. } => Update {
                info: Cell::Absent,
                symbol: Some((*id, SymbolUpdate::Bytes(bytes.as_slice()))),
            },
            Fact::SymbolConflict { id, .. } => Update {
                info: Cell::Absent,
                symbol: Some((*id, SymbolUpdate::Conflict)),
            },
        }
    }

    /// The update of a packet. None if it contains neither transmission information nor a symbol.
    pub fn of_packet(packet: &Packet<'a>) -> Option<Self>
        requires { IfSome packet.now.symbol (λ symbol. HasSymbolSize symbol.1) }
        ensures update { IfSome result IsUpdate }
        ensures facts { IfSome result (λ update. (sender : ℕ)
            → update_facts (key_of sender packet.now) update ≡ facts_of sender packet.now) }
        ensures nothing { IfNone result ((sender : ℕ) → facts_of sender packet.now ≡ []) }
    {
        let info = match packet.info() {
            Some(info) => Cell::One(info),
            None => Cell::Absent,
        };
        match packet.symbol() {
            Some((id, bytes)) => Some(Update {
                info,
                symbol: Some((id, SymbolUpdate::Bytes(bytes))),
            }),
            None if matches!(info, Cell::Absent) => None,
            None => Some(Update { info, symbol: None }),
        }
    }

    /// The number of facts: 1 or 2.
    pub fn count(&self) -> u64
        ensures { (key : Name) → result ≡ length (update_facts key self.now) }
    {
        let symbols = match self.symbol {
            Some(_) => 1,
            None => 0,
        };
        match self.info {
            Cell::Absent => symbols,
            _ => symbols + 1,
        }
    }
}
