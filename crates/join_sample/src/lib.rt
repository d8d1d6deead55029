//! A sample over `flute_join`: a struct of a cell and a map that is joined, and maps of maps of it.
//! It is built on what `flute_join` promises in public: a layer above needs no more.
#![tactic(auto)]

ghost use Rattle.std.specs.Prelude.{◌≡◌, ◌≤◌, length, OnOk, IfErr};
ghost use Rattle.flute_join.specs.Semilattice.{IsBelow};
ghost use Rattle.flute_join.specs.JoinMap.{EachValue};
ghost use Rattle.join_sample.specs.Object.{
  object_join,
  ObjectOver,
  ObjectNeedsMemory,
  IsSoundObject,
  object_join_laws,
};
ghost use Rattle.join_sample.specs.Sessions.{sessions_join, SessionsOver, IsSoundObjects};

use flute_join::{Cell, Join, JoinMap, JoinRefusal};
use std::alloc::Global;

/// An object: its transmission information and its symbols.
#[derive(Drop)]
pub struct Object<const SYMBOLS: u32> {
    pub info: Cell<u8>,
    pub symbols: JoinMap<u16, Cell<u8>, SYMBOLS>,
}

impl<const SYMBOLS: u32> Join for Object<SYMBOLS> {
    ghost joined = { object_join };

    ghost over = { ObjectOver };

    ghost needs_memory = { ObjectNeedsMemory };

    ghost sound = { IsSoundObject };

    ghost join_laws = { object_join_laws SYMBOLS };

    fn join_from(&mut self, alloc: Global, other: &Self) -> Result<(), JoinRefusal> {
        self.info.join_from(alloc, &other.info)?;
        self.symbols.join_from(alloc, &other.symbols)
    }

    fn copy(&self, alloc: Global) -> Result<Self, JoinRefusal> {
        Ok(Object {
            info: self.info.copy(alloc)?,
            symbols: self.symbols.copy(alloc)?,
        })
    }
}

/// The objects of a session.
pub type Objects<const OBJECTS: u32, const SYMBOLS: u32> = JoinMap<u16, Object<SYMBOLS>, OBJECTS>;

/// The sessions of a store.
pub type Sessions<const SESSIONS: u32, const OBJECTS: u32, const SYMBOLS: u32> = JoinMap<
    u16,
    Objects<OBJECTS, SYMBOLS>,
    SESSIONS,
>;

/// Joins other sessions into these. `Full` comes only where they have more sessions, objects
/// or symbols together than the limits. Whatever the result, no session is left without an object,
/// and no object with nothing in it.
pub fn absorb<const SESSIONS: u32, const OBJECTS: u32, const SYMBOLS: u32>(
    sessions: &mut Sessions<SESSIONS, OBJECTS, SYMBOLS>,
    alloc: Global,
    other: &Sessions<SESSIONS, OBJECTS, SYMBOLS>,
) -> Result<(), JoinRefusal>
    ensures ok { OnOk result (sessions.new ≡ sessions_join sessions.old other.now) }
    ensures above_old { IsBelow sessions_join sessions.old sessions.new }
    ensures below_join { IsBelow sessions_join sessions.new (sessions_join sessions.old other.now) }
    ensures full { IfErr result (λ why. why ≡ JoinRefusal.Full
        → SessionsOver SESSIONS OBJECTS sessions.old other.now) }
    ensures within_limit { length sessions.new ≤ SESSIONS }
    ensures each { EachValue (IsSoundObjects OBJECTS) sessions.old
        → EachValue (IsSoundObjects OBJECTS) other.now
        → EachValue (IsSoundObjects OBJECTS) sessions.new }
{
    sessions.join_from(alloc, other)
}

#[cfg(test)]
mod tests;
