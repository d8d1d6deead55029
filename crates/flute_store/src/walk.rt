//! Yields the facts of a store, one after another, in the order of their addresses.
ghost use Rattle.std.specs.Iterator.{item_count};
ghost use Rattle.std.specs.Prelude.{◌≡◌, ◌≢◌, [], List};
ghost use Rattle.flute_parts.specs.declared.fact.Fact.{Fact};
ghost use Rattle.flute_parts.specs.declared.key.Key.{Key as Name};
ghost use Rattle.flute_store.specs.Walk.{YieldsFact};

use crate::held_objects::{HasObjects, HeldObjects};
use crate::held_symbol::HeldSymbol;
use crate::object::Object;
use flute_join::{Cell, Entries};
use flute_parts::{FactRef, Info, Key, SymbolId};
use std::marker::Model;

/// The facts of an object that are left.
#[derive(Drop)]
pub struct ObjectWalk<'a> {
    key: Key,
    /// The transmission information, whose fact comes first.
    info: Option<&'a Cell<Info>>,
    symbols: Entries<'a, SymbolId, HeldSymbol>,
}

impl<'a> Model for ObjectWalk<'a> {
    ghost use Rattle.std.specs.Prelude.{List, ◌++◌};
    ghost use Rattle.flute_parts.specs.declared.fact.Fact.{Fact};

    ghost Value = { List Fact };

    ghost use Rattle.flute_join.specs.Cell.{IsKnown};
    ghost use Rattle.flute_join.specs.JoinMap.{EachValue};
    ghost use Rattle.flute_store.specs.Content.{symbols_facts};
    ghost use Rattle.flute_store.specs.Walk.{info_left};

    ghost view = { λ w. info_left w.key w.info ++ symbols_facts w.key w.symbols };

    ghost invariant = { λ w. EachValue IsKnown w.symbols };
}

impl<'a> ObjectWalk<'a> {
    // The next one.
    #[inline(always)]
    fn next(&mut self) -> Option<FactRef<'a>>
        ensures { YieldsFact (λ rest. rest) self.old result self.new }
    {
        if let Some(info) = self.info.take() {
            match info {
                Cell::Absent => {}
                Cell::One(info) => {
                    return Some(FactRef::Info {
                        key: self.key,
                        info: *info,
                    });
                }
                Cell::Conflict => return Some(FactRef::InfoConflict { key: self.key }),
            }
        }
        let (id, held) = self.symbols.next()?;
        match held.value() {
            Some(bytes) => Some(FactRef::Symbol {
                key: self.key,
                id: *id,
                bytes,
            }),
            None => Some(FactRef::SymbolConflict {
                key: self.key,
                id: *id,
            }),
        }
    }
}

/// What has facts, at least one.
pub trait HasFacts: Drop {
    ghost is_sound: { Self → Type 0 };

    ghost facts_of: { Name → Self → List Fact };

    fn facts(&self, key: Key) -> ObjectWalk<'_>
        requires { is_sound self.now }
        ensures { result ≡ facts_of key self.now };

    ghost has_some: { (x : Self) (key : Name) → is_sound x → facts_of key x ≢ [] };
}

impl<const SYMBOLS: u32> HasFacts for Object<SYMBOLS> {
    ghost use Rattle.flute_store.specs.Content.{object_facts};
    ghost use Rattle.flute_store.specs.WellFormed.{IsObject};
    ghost use Rattle.flute_store.specs.ObjectFacts.{object_has_facts};

    ghost is_sound = { IsObject };

    ghost facts_of = { object_facts };

    ghost has_some = { object_has_facts SYMBOLS };

    fn facts(&self, key: Key) -> ObjectWalk<'_> {
        ObjectWalk {
            key,
            info: Some(&self.info),
            symbols: self.symbols.iter(),
        }
    }
}

/// The facts of a store that are left.
#[derive(Drop)]
pub struct Walk<'a, S: HasObjects + 'a> {
    pub(crate) object: Option<ObjectWalk<'a>>,
    pub(crate) objects: HeldObjects<'a, S>,
}

impl<'a, S: HasObjects + 'a> Model for Walk<'a, S> {
    ghost use Rattle.std.specs.Prelude.{List, ◌++◌};
    ghost use Rattle.flute_parts.specs.declared.fact.Fact.{Fact};

    ghost Value = { List Fact };

    ghost use Rattle.flute_join.specs.JoinMap.{EachValue};
    ghost use Rattle.flute_store.specs.Walk.{option_rest, facts_in};

    ghost view = { λ w. option_rest w.object ++ facts_in S.Object.facts_of w.objects };

    ghost invariant = { λ w. EachValue S.Object.is_sound w.objects };
}

impl<'a, S: HasObjects + 'a> Iterator for Walk<'a, S> {
    type Item = FactRef<'a>;

    ghost next_gives = { YieldsFact (λ rest. rest) };

    ghost remaining = { item_count (λ rest. rest) };

    #[inline(always)]
    fn next(&mut self) -> Option<FactRef<'a>> {
        if let Some(object) = &mut self.object {
            if let Some(fact) = object.next() {
                return Some(fact);
            }
        }
        let Some((key, object)) = self.objects.next() else {
            return None;
        };
        let mut facts = object.facts(key);
        let first = facts.next();
        self.object = Some(facts);
        first
    }
}
