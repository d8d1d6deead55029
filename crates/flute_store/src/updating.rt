//! Joins an update of an object into the maps of a store; a refused one changes nothing.
ghost use Rattle.std.specs.Prelude.{◌≡◌, OnOk, OnErr, IsOk};
ghost use Rattle.flute_join.specs.JoinMap.{EachValue, IsSound};
ghost use Rattle.flute_parts.specs.Order.{session_cmp};
ghost use Rattle.flute_store.specs.Update.{with_object, with_session, IsUpdate, IsHeldObject};
ghost use Rattle.flute_store.specs.Update.{IsHeldSession};
ghost use Rattle.flute_store.specs.WellFormed.{IsObject, IsSession};
ghost use Rattle.flute_store.specs.Beyond.{SessionBeyond, StoreBeyond};

use crate::object::Object;
use crate::update::Update;
use flute_join::{Cell, JoinMap, JoinRefusal};
use flute_parts::{Key, ObjectKey, SessionKey};
use std::alloc::Global;

/// The objects of a session.
pub type Objects<const OBJECTS: u32, const SYMBOLS: u32> = JoinMap<
    ObjectKey,
    Object<SYMBOLS>,
    OBJECTS,
>;

/// The sessions of a store.
pub type Sessions<const SESSIONS: u32, const OBJECTS: u32, const SYMBOLS: u32> = JoinMap<
    SessionKey,
    Objects<OBJECTS, SYMBOLS>,
    SESSIONS,
>;

/// Joins an update of an object into a session. `Full` comes before any memory is asked for.
/// After a refusal the session is unchanged.
#[inline(always)]
pub fn join_object<const OBJECTS: u32, const SYMBOLS: u32>(
    objects: &mut Objects<OBJECTS, SYMBOLS>,
    alloc: Global,
    key: ObjectKey,
    update: &Update<'_>,
) -> Result<(), JoinRefusal>
    requires each { EachValue IsObject objects.old }
    requires update { IsUpdate update.now }
    ensures ok { OnOk result (objects.new ≡ with_object objects.old key update.now) }
    ensures err { OnErr result (objects.new ≡ objects.old) }
    ensures full { result ≡ Err JoinRefusal.Full
        → SessionBeyond OBJECTS (with_object objects.old key update.now) }
    ensures held { IsHeldObject objects.old key update.now → IsOk result }
    ensures room { (result ≡ Err JoinRefusal.Full → ⊥)
        → IsSession OBJECTS (with_object objects.old key update.now) }
{
    if let Some(held) = objects.get_mut(&key) {
        return held.join_update(alloc, update);
    }
    if objects.len() == OBJECTS {
        return Err(JoinRefusal::Full);
    }
    let mut object = Object {
        info: Cell::Absent,
        symbols: JoinMap::new(alloc),
    };
    object.join_update(alloc, update)?;
    objects.add_new(key, object)
}

/// Joins an update of an object into the sessions. `Full` comes before any memory is asked for.
/// After a refusal they are unchanged.
#[inline(always)]
pub fn join_session<const SESSIONS: u32, const OBJECTS: u32, const SYMBOLS: u32>(
    sessions: &mut Sessions<SESSIONS, OBJECTS, SYMBOLS>,
    alloc: Global,
    key: &Key,
    update: &Update<'_>,
) -> Result<(), JoinRefusal>
    requires each { EachValue (IsSession OBJECTS) sessions.old }
    requires update { IsUpdate update.now }
    ensures ok { OnOk result (sessions.new ≡ with_session sessions.old key.now update.now) }
    ensures err { OnErr result (sessions.new ≡ sessions.old) }
    ensures full { result ≡ Err JoinRefusal.Full
        → StoreBeyond SESSIONS OBJECTS (with_session sessions.old key.now update.now) }
    ensures held { IsHeldSession sessions.old key.now update.now → IsOk result }
    ensures room { (result ≡ Err JoinRefusal.Full → ⊥)
        → IsSound session_cmp SESSIONS (IsSession OBJECTS)
        (with_session sessions.old key.now update.now) }
{
    if let Some(held) = sessions.get_mut(&key.session) {
        return join_object(held, alloc, key.object, update);
    }
    if sessions.len() == SESSIONS {
        return Err(JoinRefusal::Full);
    }
    let mut objects = JoinMap::new(alloc);
    join_object(&mut objects, alloc, key.object, update)?;
    sessions.add_new(key.session, objects)
}
