//! `JoinMap`: a map of at most so many keys, whose values are joined key by key.
ghost use Rattle.std.specs.Prelude.{◌≡◌, ◌<◌, ◌≤◌, None};
ghost use Rattle.std.specs.Prelude.{[], ◌∷◌, length, is_some, List, IsNone, IsSome, IfErr};
ghost use Rattle.std.specs.Prelude.{OnOk, OnErr, IsOk, ◌↔◌};
ghost use Rattle.std.specs.Option.{option_copied, option_copied_mut, ForSome};
ghost use Rattle.std.specs.BTreeMap.{insert_entry};
ghost use Rattle.std.specs.Map.Iter.{ShowsInOrder, deref_pair};
ghost use Rattle.std.specs.Borrow.{sem};
ghost use Rattle.flute_join.specs.JoinMap.{IsOrdered, value_at, map_join, MapOver, MapNeedsMemory};
ghost use Rattle.flute_join.specs.JoinMap.{EachValue, IsSound};
ghost use Rattle.flute_join.specs.Stopped.{StopsJoining};
ghost use Rattle.flute_join.specs.Semilattice.{IsBelow};
ghost use Rattle.flute_join.specs.MapLaws.{map_join_laws};

use crate::join::Join;
use crate::join_into::JoinInto;
use crate::map_key::MapKey;
use crate::refusal::JoinRefusal;
use std::alloc::Global;
use std::collections::btree_map::Entry;
use std::collections::{BTreeMap, btree_map};
use std::marker::Model;

/// A map in the order of its keys, with at most `LIMIT` of them. The limit is part of the type, so
/// two maps that are joined have the same. Only what adds, joins or copies asks for memory.
#[derive(Drop)]
pub struct JoinMap<K: MapKey, V: Join, const LIMIT: u32> {
    entries: BTreeMap<K, V>,
}

/// The entries of a map, in rising order of their keys.
pub type Entries<'a, K, V> = btree_map::Iter<'a, K, V>;

impl<K: MapKey, V: Join, const LIMIT: u32> Model for JoinMap<K, V, LIMIT> {
    ghost use Rattle.std.specs.Prelude.{◌≤◌, List, length};

    // The entries in rising order of their keys.
    ghost Value = { List (K × V) };

    ghost use Rattle.flute_join.specs.JoinMap.{IsOrdered};

    ghost view = { λ m. m.entries.entries };

    ghost invariant = { λ m. IsOrdered K.cmp m.entries.entries
        × (length m.entries.entries ≤ LIMIT) };
}

impl<K: MapKey, V: Join, const LIMIT: u32> JoinMap<K, V, LIMIT> {
    ghost use Rattle.flute_join.specs.Lends.{lends_value};

    /// The empty map. It takes no memory, and asks `alloc` for it as it grows.
    pub fn new(alloc: Global) -> Self
        ensures { result ≡ [] }
    {
        JoinMap {
            entries: BTreeMap::new(alloc),
        }
    }

    /// The number of keys, at most `LIMIT`.
    pub fn len(&self) -> u32
        ensures value { result ≡ length self.now }
        ensures within { result ≤ LIMIT }
        ensures ordered { IsOrdered K.cmp self.now }
    {
        self.entries.len() as u32
    }

    /// The value at a key, or `None` if the key is not held.
    pub fn get(&self, key: &K) -> Option<&V>
        ensures value { option_copied result ≡ value_at K.cmp self.now key.now }
        ensures ordered { IsOrdered K.cmp self.now }
    {
        self.entries.get(key)
    }

    /// Whether a key is held.
    pub fn contains(&self, key: &K) -> bool
        ensures value { result ≡ is_some (value_at K.cmp self.now key.now) }
        ensures ordered { IsOrdered K.cmp self.now }
    {
        self.entries.contains_key(key)
    }

    /// The entries in rising order of their keys.
    pub fn iter(&self) -> Entries<'_, K, V>
        ensures rest { result ≡ self.now }
        ensures runs { ShowsInOrder (deref_pair {K = K} {X = V}) }
        ensures ordered { IsOrdered K.cmp self.now }
        ensures within { length self.now ≤ LIMIT }
    {
        self.entries.iter()
    }

    /// The value at a key, to be changed in place, or `None` if the key is not held. What is
    /// written changes the value at that key alone.
    pub fn get_mut(&mut self, key: &K) -> Option<&mut V>
        ensures* writes_back { sem 𝓛
            (lends_value K.row V.row LIMIT.row K.MapKey V.Join self.entry (K.cmp key.now) result) }
        ensures value { option_copied_mut result ≡ value_at K.cmp self.old key.now }
        ensures ordered { IsOrdered K.cmp self.old }
        ensures within { length self.old ≤ LIMIT }
    {
        self.entries.get_mut(key)
    }

    /// Adds an entry at a key that is not held; `contains` is the test. `Full` comes exactly if
    /// the map has `LIMIT` keys, before any memory is asked for. A refusal leaves the map
    /// unchanged, and drops the value.
    pub fn add_new(&mut self, key: K, value: V) -> Result<(), JoinRefusal>
        requires { IsNone (value_at K.cmp self.old key) }
        ensures ok { OnOk result (self.new ≡ insert_entry K.cmp self.old key value) }
        ensures err { OnErr result (self.new ≡ self.old) }
        ensures full { (result ≡ Err JoinRefusal.Full) ↔ (length self.old ≡ LIMIT) }
        ensures joins { OnOk result
            (self.new ≡ map_join K.cmp V.joined self.old ((key, value) ∷ [])) }

        // Whatever the result:
        ensures ordered { IsOrdered K.cmp self.new }
        ensures within_limit { length self.new ≤ LIMIT }
        ensures each { EachValue V.sound self.old → V.sound value → EachValue V.sound self.new }
    {
        if self.len() == LIMIT {
            return Err(JoinRefusal::Full);
        }
        match self.entries.insert(key, value) {
            Ok(_) => Ok(()),
            Err(_) => Err(JoinRefusal::OutOfMemory),
        }
    }

    /// Joins a value into the one at a key, as joining a map of that one pair.
    ///
    /// At a new key `Full` comes exactly if the map has `LIMIT` keys, before any memory is asked
    /// for, and a refusal leaves the map unchanged. At a held key the result is that of joining the
    /// two values.
    pub fn join_at(&mut self, alloc: Global, key: K, value: &V) -> Result<(), JoinRefusal>
        ensures ok { OnOk result
            (self.new ≡ map_join K.cmp V.joined self.old ((key, value.now) ∷ [])) }

        // Whatever the result:
        ensures above_old { IsBelow (map_join K.cmp V.joined) self.old self.new }
        ensures below_join { IsBelow (map_join K.cmp V.joined) self.new
            (map_join K.cmp V.joined self.old ((key, value.now) ∷ [])) }
        ensures ordered { IsOrdered K.cmp self.old }
        ensures within_limit { length self.new ≤ LIMIT }
        ensures each { EachValue V.sound self.old → V.sound value.now → EachValue V.sound self.new }

        // At a new key:
        ensures new_full { IsNone (value_at K.cmp self.old key)
            → ((result ≡ Err JoinRefusal.Full) ↔ (length self.old ≡ LIMIT)) }
        ensures new_unchanged { IsNone (value_at K.cmp self.old key)
            → OnErr result (self.new ≡ self.old) }

        // At a held key:
        ensures held_full { ForSome (value_at K.cmp self.old key)
            (λ held. result ≡ Err JoinRefusal.Full → V.over held value.now) }
        ensures held_memory { ForSome (value_at K.cmp self.old key)
            (λ held. result ≡ Err JoinRefusal.OutOfMemory → V.needs_memory held value.now) }

        // As for the join of maps:
        ensures within { OnOk result
            (¬ MapOver K.cmp V.joined LIMIT V.over self.old ((key, value.now) ∷ [])) }
        ensures full { IfErr result (λ why. why ≡ JoinRefusal.Full
            → MapOver K.cmp V.joined LIMIT V.over self.old ((key, value.now) ∷ [])) }
    {
        if let Some(held) = self.get_mut(&key) {
            return held.join_from(alloc, value);
        }
        // Before the copy asks for memory.
        if self.len() == LIMIT {
            return Err(JoinRefusal::Full);
        }
        self.add_new(key, value.copy(alloc)?)
    }

    /// Joins what `update` says into the value at a key, or makes it the value at a new key. The
    /// key is looked up once.
    ///
    /// # Errors
    ///
    /// None at a held key, where no memory is taken. At a new key `Full` exactly if the map has
    /// `LIMIT` keys, before any memory is asked for, and else `OutOfMemory`. A refusal leaves the
    /// map unchanged, and drops the update.
    pub fn join_with<U: JoinInto<V>>(
        &mut self,
        alloc: Global,
        key: K,
        update: U,
    ) -> Result<(), JoinRefusal>
        requires fits { U.fits update }
        requires each { EachValue V.sound self.old }
        ensures ok { OnOk result
            (self.new ≡ map_join K.cmp V.joined self.old ((key, U.value update) ∷ [])) }
        ensures err { OnErr result (self.new ≡ self.old) }
        ensures held { IsSome (value_at K.cmp self.old key) → IsOk result }
        ensures full { (result ≡ Err JoinRefusal.Full)
            ↔ ((value_at K.cmp self.old key ≡ None) × (length self.old ≡ LIMIT)) }
        ensures ordered { IsOrdered K.cmp self.old }
        ensures within { length self.old ≤ LIMIT }
    {
        if self.len() == LIMIT {
            let Some(held) = self.get_mut(&key) else {
                return Err(JoinRefusal::Full);
            };
            update.join_into(held);
            return Ok(());
        }
        let place = match self.entries.entry(key) {
            Ok(Entry::Vacant(place)) => Entry::Vacant(place),
            Ok(Entry::Occupied(held)) => {
                update.join_into(held.into_mut());
                return Ok(());
            }
            Err(_) => return Err(JoinRefusal::OutOfMemory),
        };
        // A vacant place that is dropped has no contract that the map is as before; this call has.
        place.or_try_insert_with(|| update.into_value(alloc))?;
        Ok(())
    }
}

impl<K: MapKey, V: Join, const LIMIT: u32> Join for JoinMap<K, V, LIMIT> {
    ghost joined = { map_join K.cmp V.joined };

    ghost over = { MapOver K.cmp V.joined LIMIT V.over };

    ghost needs_memory = { MapNeedsMemory K.cmp V.needs_memory };

    ghost sound = { IsSound K.cmp LIMIT V.sound };

    ghost join_laws = { map_join_laws K.total K.same_where_equal V.join_laws };

    /// Joins another map into this one: the keys united, the values at shared keys joined.
    ///
    /// The entries of `other` are taken in rising order of their keys. A refusal stops at one of
    /// them: those before it are joined, those after it are not. At a new key it is `Full` exactly
    /// if this map has `LIMIT` keys, before any memory is asked for; at a held key it is the
    /// refusal of joining the two values.
    fn join_from(&mut self, alloc: Global, other: &Self) -> Result<(), JoinRefusal>
        ensures ok { OnOk result (self.new ≡ map_join K.cmp V.joined self.old other.now) }
        ensures stops { IfErr result
            (StopsJoining K.cmp V.joined LIMIT V.over V.needs_memory self.old other.now self.new) }

        // Whatever the result, also of an empty map:
        ensures ordered { IsOrdered K.cmp self.new }
        ensures within_limit { length self.new ≤ LIMIT }
        ensures each { EachValue V.sound self.old → EachValue V.sound other.now
            → EachValue V.sound self.new }

        // As for each join:
        ensures above_old { IsBelow (map_join K.cmp V.joined) self.old self.new }
        ensures below_join { IsBelow (map_join K.cmp V.joined) self.new
            (map_join K.cmp V.joined self.old other.now) }
        ensures stays_sound { IsSound K.cmp LIMIT V.sound self.old
            → IsSound K.cmp LIMIT V.sound other.now
            → IsSound K.cmp LIMIT V.sound self.new }
        ensures within { OnOk result (¬ MapOver K.cmp V.joined LIMIT V.over self.old other.now) }
        ensures full { IfErr result (λ why. why ≡ JoinRefusal.Full
            → MapOver K.cmp V.joined LIMIT V.over self.old other.now) }
        ensures memory { IfErr result (λ why. why ≡ JoinRefusal.OutOfMemory
            → MapNeedsMemory K.cmp V.needs_memory self.old other.now) }
    {
        for (key, value) in other.iter() {
            self.join_at(alloc, *key, value)?;
        }
        // From this the proof knows that the keys are in order, and within the limit.
        let _ = &self.entries;
        Ok(())
    }

    fn copy(&self, alloc: Global) -> Result<Self, JoinRefusal> {
        let mut copied = JoinMap::new(alloc);
        for (key, value) in self.iter() {
            copied.add_new(*key, value.copy(alloc)?)?;
        }
        Ok(copied)
    }
}
