//! `Store`: receptions in memory, within limits, and the calls that add facts to it.
ghost use Rattle.std.specs.Prelude.{
  ◌≡◌,
  ◌≤◌,
  ◌+◌,
  ◌*◌,
  ◌↔◌,
  [],
  ◌∷◌,
  ◌++◌,
  length,
  ℕ,
  List,
  Contains,
  is_some,
  option_map,
  Some,
  OnOk,
  OnErr,
  IfOk,
  IfErr,
  IfSome,
  IsOk,
};
ghost use Rattle.std.specs.List.{AllByRecursion};
ghost use Rattle.std.specs.List.Sorted.{IsStrictlySortedBy};
ghost use Rattle.flute_join.specs.JoinMap.{MapOver, MapNeedsMemory};
ghost use Rattle.flute_join.specs.Semilattice.{IsBelow};
ghost use Rattle.flute_parts.specs.Order.{key_cmp, session_cmp, object_cmp};
ghost use Rattle.flute_parts.specs.declared.key.Key.{Key as Name};
ghost use Rattle.flute_parts.specs.Facts.{fact_at, Same, Below, IsRising};
ghost use Rattle.flute_parts.specs.Limits.{Over};
ghost use Rattle.flute_store.specs.Update.{update_facts, IsUpdate};
ghost use Rattle.flute_store.specs.Memory.{HasNew};
ghost use Rattle.flute_store.specs.ObjectJoin.{object_join, session_join, store_join, ObjectOver};
ghost use Rattle.flute_store.specs.ObjectJoin.{ObjectNeedsMemory};
ghost use Rattle.flute_store.specs.WellFormed.{IsStore};
ghost use Rattle.flute_store.specs.Held.{HasCell, HoldsObject};
ghost use Rattle.flute_parts.specs.SymbolBytes.{HasSymbolSize};
ghost use Rattle.flute_wire.specs.Content.{Content};
ghost use Rattle.flute_wire.specs.Facts.{facts_of, key_of};
ghost use Rattle.flute_wire.specs.Datagram.{Spells};
ghost use Rattle.flute_wire.specs.Reading.{facts, packet};
ghost use Rattle.flute_wire.specs.Refusals.{Refuses};
ghost use Rattle.flute_wire.specs.declared.refusal.Refusal.{Refusal};

use crate::held_objects::HeldObjects;
use crate::keys::Keys;
use crate::taken::{TakeFault, Taken};
use crate::update::Update;
use crate::updating::{Objects, Sessions, join_session};
use crate::walk::Walk;
use flute_join::{Cell, Join, JoinMap, JoinRefusal};
use flute_parts::{Address, Fact, Key, Part, Sender};
use flute_wire::{Packet, read};
use std::alloc::Global;
use std::marker::Model;

/// What was received: at most `SESSIONS` sessions, `OBJECTS` objects of each and `SYMBOLS` symbols
/// of each object, with an object's transmission information beside them. Proofs see it as the list
/// of its facts in the order of their addresses, one at each.
///
/// No session is held without an object, and no object without transmission information or a
/// symbol.
#[derive(Drop)]
pub struct Store<const SESSIONS: u32, const OBJECTS: u32, const SYMBOLS: u32> {
    pub(crate) sessions: Sessions<SESSIONS, OBJECTS, SYMBOLS>,
}

/// A store of the size that the program uses.
pub type Shelf = Store<64, 4096, 1_048_576>;

impl<const SESSIONS: u32, const OBJECTS: u32, const SYMBOLS: u32> Model
    for Store<SESSIONS, OBJECTS, SYMBOLS> {
    ghost use Rattle.std.specs.Prelude.{List};
    ghost use Rattle.flute_parts.specs.declared.fact.Fact.{Fact};

    ghost Value = { List Fact };

    ghost use Rattle.flute_store.specs.Content.{content};
    ghost use Rattle.flute_store.specs.WellFormed.{IsStore};

    ghost view = { λ s. content s.sessions };

    ghost invariant = { λ s. IsStore SESSIONS OBJECTS s.sessions };
}

impl<const SESSIONS: u32, const OBJECTS: u32, const SYMBOLS: u32> Store<
    SESSIONS,
    OBJECTS,
    SYMBOLS,
> {
    /// The empty store. It takes no memory.
    pub fn new(alloc: Global) -> Self
        ensures { result ≡ [] }
    {
        Store {
            sessions: JoinMap::new(alloc),
        }
    }

    /// Joins another store into this one: it holds the facts of both, and the conflict at each
    /// address where they have two values.
    ///
    /// It looks up each session, object and symbol of the other store once, and copies the bytes of
    /// a symbol only if the symbol is new.
    ///
    /// # Errors
    ///
    /// `Full` only if both together pass the limits, and `OutOfMemory` only if the other
    /// store has a fact at an address that is not held here. After either this store has its old
    /// facts and perhaps some of the other one's: absorbing that again with success gives the join.
    pub fn absorb(&mut self, alloc: Global, other: &Self) -> Result<(), JoinRefusal>
        ensures ok { OnOk result (Same self.new (self.old ++ other.now)) }
        ensures above { Below self.old self.new }
        ensures below { Below self.new (self.old ++ other.now) }
        ensures full { result ≡ Err JoinRefusal.Full
            → Over (self.old ++ other.now) SESSIONS OBJECTS SYMBOLS }
        ensures memory { result ≡ Err JoinRefusal.OutOfMemory → HasNew self.old other.now }
    {
        // From this the proof knows that the other store is one.
        let _ = &other.sessions;
        self.sessions.join_from(alloc, &other.sessions)
    }

    // Joins an update of an object. After a refusal the store is unchanged.
    fn join_update(
        &mut self,
        alloc: Global,
        key: &Key,
        update: &Update<'_>,
    ) -> Result<(), JoinRefusal>
        requires { IsUpdate update.now }
        ensures ok { OnOk result (Same self.new (self.old ++ update_facts key.now update.now)) }
        ensures err { OnErr result (self.new ≡ self.old) }
        ensures full { (result ≡ Err JoinRefusal.Full)
            ↔ Over (self.old ++ update_facts key.now update.now) SESSIONS OBJECTS SYMBOLS }
        ensures held { AllByRecursion (HasCell self.old) (update_facts key.now update.now)
            → IsOk result }
    {
        join_session(&mut self.sessions, alloc, key, update)
    }

    /// Adds a fact. If another value is held at its address, the conflict is held from then on, as
    /// it is after a fact that is a conflict. It costs as much as [`take`](Store::take).
    ///
    /// # Errors
    ///
    /// `Full` exactly if the fact needs a new session, object or symbol beyond the limits,
    /// before any memory is asked for, and else `OutOfMemory`. Neither comes at a held address.
    /// After each the store is unchanged.
    pub fn add(&mut self, alloc: Global, fact: &Fact) -> Result<(), JoinRefusal>
        ensures ok { OnOk result (Same self.new (self.old ++ fact.now ∷ [])) }
        ensures err { OnErr result (self.new ≡ self.old) }
        ensures full { (result ≡ Err JoinRefusal.Full)
            ↔ Over (self.old ++ fact.now ∷ []) SESSIONS OBJECTS SYMBOLS }
        ensures held { HasCell self.old fact.now → IsOk result }
    {
        self.join_update(alloc, &fact.address().key, &Update::of_fact(fact))
    }

    /// Adds the facts of a datagram that this sender sent: the transmission information of its
    /// object and its encoding symbol, as far as it has them. What is held at an address already is
    /// joined, as by [`add`](Store::add). Whether a symbol fits the transmission information is not
    /// checked, nor whether there is any. Whether a datagram is refused does not depend on the
    /// sender.
    ///
    /// It looks up the session, the object and the symbol once each. A new symbol's bytes are
    /// copied once; at a held address nothing is copied, and no memory is asked for.
    ///
    /// # Errors
    ///
    /// `Datagram` with the first refusal of [`read`](flute_wire::read), else `Full` exactly if a
    /// fact needs a new session, object or symbol beyond the limits, and else `OutOfMemory`. If
    /// every fact has a held address, neither of the last two comes. After each the store is
    /// unchanged: of two facts it never keeps one.
    pub fn take(
        &mut self,
        alloc: Global,
        sender: Sender,
        datagram: &[u8],
    ) -> Result<Taken, TakeFault>
        ensures ok { OnOk result (Same self.new (self.old ++ facts sender datagram.now)) }
        ensures key { IfOk result
            (λ taken. option_map (key_of sender) (packet datagram.now) ≡ Some taken.key) }
        ensures number { IfOk result (λ taken. taken.facts ≡ length (facts sender datagram.now)) }
        ensures err { OnErr result (self.new ≡ self.old) }
        ensures refused { (r : Refusal) → (result ≡ Err (TakeFault.Datagram r))
            ↔ Refuses datagram.now r }
        ensures full { (result ≡ Err TakeFault.Full)
            ↔ Over (self.old ++ facts sender datagram.now) SESSIONS OBJECTS SYMBOLS }
        ensures held { (p : Content) → Spells datagram.now p
            → AllByRecursion (HasCell self.old) (facts sender datagram.now) → IsOk result }
    {
        // From this the proof knows that the store is within its limits.
        let _ = &self.sessions;
        match read(datagram) {
            Ok(packet) => match self.take_packet(alloc, sender, &packet) {
                Ok(taken) => Ok(taken),
                Err(JoinRefusal::Full) => Err(TakeFault::Full),
                Err(JoinRefusal::OutOfMemory) => Err(TakeFault::OutOfMemory),
            },
            Err(refusal) => Err(TakeFault::Datagram(refusal)),
        }
    }

    /// Adds the facts of a datagram, as [`take`](Store::take) does, for who has read it: it is not
    /// read again.
    ///
    /// # Errors
    ///
    /// `Full` and `OutOfMemory` of `take`. After each the store is unchanged.
    pub fn take_packet(
        &mut self,
        alloc: Global,
        sender: Sender,
        packet: &Packet<'_>,
    ) -> Result<Taken, JoinRefusal>
        requires read { (datagram : List ℕ) × Spells datagram packet.now }
        ensures ok { OnOk result (Same self.new (self.old ++ facts_of sender packet.now)) }
        ensures key { IfOk result (λ taken. taken.key ≡ key_of sender packet.now) }
        ensures number { IfOk result
            (λ taken. taken.facts ≡ length (facts_of sender packet.now)) }
        ensures err { OnErr result (self.new ≡ self.old) }
        ensures full { (result ≡ Err JoinRefusal.Full)
            ↔ Over (self.old ++ facts_of sender packet.now) SESSIONS OBJECTS SYMBOLS }
        ensures held { AllByRecursion (HasCell self.old) (facts_of sender packet.now)
            → IsOk result }
    {
        // From this the proof knows that the store is within its limits.
        let _ = &self.sessions;
        let key = packet.key(sender);
        let Some(update) = Update::of_packet(packet) else {
            return Ok(Taken { key, facts: 0 });
        };
        let facts = update.count();
        match self.join_update(alloc, &key, &update) {
            Ok(()) => Ok(Taken { key, facts }),
            Err(refusal) => Err(refusal),
        }
    }

    /// The facts in the rising order of their addresses: sessions, in each its FDT Instances and
    /// then its files, and of each object the transmission information before the symbols. The
    /// bytes of a symbol are borrowed, 1 to 65,535 of them.
    ///
    /// It takes no memory, and goes once over what is held.
    pub fn walk(&self) -> Walk<'_, Objects<OBJECTS, SYMBOLS>>
        ensures value { result ≡ self.now }
        ensures rising { IsRising self.now }
        ensures within { ¬ Over self.now SESSIONS OBJECTS SYMBOLS }
        ensures few { length self.now ≤ SESSIONS * OBJECTS * (SYMBOLS + 1) }
    {
        // From this the proof knows that the store is within its limits.
        let _ = &self.sessions;
        let objects = HeldObjects::new(self.sessions.iter());
        Walk {
            object: None,
            objects,
        }
    }

    /// Every store has its facts in the rising order of their addresses, and within its limits. A
    /// law: it does nothing.
    pub fn keeps_order_and_limits(&self)
        ensures rising { IsRising self.now }
        ensures within { ¬ Over self.now SESSIONS OBJECTS SYMBOLS }
    {
        let _ = &self.sessions;
    }

    /// The keys of the objects of which something is held, in rising order. It takes no memory, and
    /// goes once over the sessions and objects.
    pub fn objects(&self) -> Keys<'_, Objects<OBJECTS, SYMBOLS>>
        ensures rising { IsStrictlySortedBy key_cmp result }
        ensures held { (key : Name) → Contains result key ↔ HoldsObject self.now key }
    {
        // From this the proof knows that each session has an object.
        let _ = &self.sessions;
        let objects = HeldObjects::new(self.sessions.iter());
        Keys { objects }
    }

    /// Whether a value or a conflict is held at the address. It takes no memory, and looks up the
    /// session, the object and the symbol once each.
    pub fn contains(&self, address: &Address) -> bool
        ensures { result ≡ is_some (fact_at self.now address.now) }
    {
        let Some(objects) = self.sessions.get(&address.key.session) else {
            return false;
        };
        let Some(object) = objects.get(&address.key.object) else {
            return false;
        };
        match address.part {
            Part::Info => !matches!(object.info, Cell::Absent),
            Part::Symbol(id) => object.symbols.contains(&id),
        }
    }
}
