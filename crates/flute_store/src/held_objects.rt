//! Yields the objects of a store, one after another, each with its key.
ghost use Rattle.std.specs.Prelude.{◌≡◌, List};
ghost use Rattle.std.specs.Iterator.{YieldsFirstBy};
ghost use Rattle.flute_parts.specs.declared.object_key.ObjectName.{ObjectName};

use crate::object::Object;
use crate::updating::Objects;
use crate::walk::HasFacts;
use flute_join::Entries;
use flute_parts::{Key, ObjectKey, SessionKey};
use std::marker::Model;

/// What has objects.
pub trait HasObjects: Drop {
    type Object: HasFacts;

    ghost objects_of: { Self → List (ObjectName × Self.Object) };

    /// The objects, each with its key, in rising order of the keys.
    fn objects(&self) -> Entries<'_, ObjectKey, Self::Object>
        ensures { result ≡ objects_of self.now };
}

impl<const OBJECTS: u32, const SYMBOLS: u32> HasObjects for Objects<OBJECTS, SYMBOLS> {
    type Object = Object<SYMBOLS>;

    ghost objects_of = { λ objects. objects };

    fn objects(&self) -> Entries<'_, ObjectKey, Object<SYMBOLS>> {
        self.iter()
    }
}

/// The objects of a store that are left, each with its key.
#[derive(Drop)]
pub struct HeldObjects<'a, S: HasObjects + 'a> {
    session: Option<(SessionKey, Entries<'a, ObjectKey, S::Object>)>,
    sessions: Entries<'a, SessionKey, S>,
}

impl<'a, S: HasObjects + 'a> Model for HeldObjects<'a, S> {
    ghost use Rattle.std.specs.Prelude.{List};
    ghost use Rattle.flute_parts.specs.declared.key.Key.{Key};

    ghost Value = { List (Key × S.Object) };

    ghost use Rattle.flute_store.specs.HeldObjects.{objects_left, HaveObjects};

    ghost view = { λ h. objects_left S.objects_of h.session h.sessions };

    ghost invariant = { λ h. HaveObjects S.objects_of h.sessions };
}

impl<'a, S: HasObjects + 'a> HeldObjects<'a, S> {
    ghost use Rattle.flute_store.specs.HeldObjects.{keyed_objects, HaveObjects};

    /// All objects of these sessions, each of which has one.
    pub fn new(sessions: Entries<'a, SessionKey, S>) -> HeldObjects<'a, S>
        requires { HaveObjects S.objects_of sessions }
        ensures { result ≡ keyed_objects S.objects_of sessions.entry }
    {
        HeldObjects {
            session: None,
            sessions,
        }
    }

    /// The next one.
    #[inline(always)]
    pub fn next(&mut self) -> Option<(Key, &'a S::Object)>
        ensures { YieldsFirstBy (λ e. (e.0, e.1.now)) (λ rest. rest) self.old result self.new }
    {
        if let Some(begun) = &mut self.session {
            if let Some((object, held)) = begun.1.next() {
                let key = Key {
                    session: begun.0,
                    object: *object,
                };
                return Some((key, held));
            }
        }
        let (session, objects) = self.sessions.next()?;
        let mut objects = objects.objects();
        let (object, held) = objects.next()?;
        let key = Key {
            session: *session,
            object: *object,
        };
        self.session = Some((*session, objects));
        Some((key, held))
    }
}
