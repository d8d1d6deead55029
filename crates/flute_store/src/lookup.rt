//! Looks up an object in the maps of a store, by its session and its name.
ghost use Rattle.std.specs.Prelude.{◌≡◌, MatchOption, length};
ghost use Rattle.flute_parts.specs.Limits.{symbols};
ghost use Rattle.flute_store.specs.Found.{IsUnheard, IsTold};

use crate::object::Object;
use crate::store::Store;
use flute_parts::Key;

impl<const SESSIONS: u32, const OBJECTS: u32, const SYMBOLS: u32> Store<
    SESSIONS,
    OBJECTS,
    SYMBOLS,
> {
    /// How many symbols of an object are held, also those with two values, and those that its
    /// partition does not have. None if nothing of it is held. It is whole at the earliest once
    /// this is the number of symbols of its partition. It takes no memory, and looks up the session
    /// and the object once each.
    pub fn held(&self, key: &Key) -> Option<u32>
        ensures { MatchOption result (IsUnheard self.now key.now)
            (λ count. count ≡ length (symbols self.now key.now)) }
    {
        let object = self.object(key)?;
        Some(object.symbols.len())
    }

    /// What is held of an object. None if nothing of it is.
    pub(crate) fn object(&self, key: &Key) -> Option<&Object<SYMBOLS>>
        ensures { MatchOption result (IsUnheard self.now key.now)
            (λ x. IsTold self.now key.now x.now) }
    {
        let objects = self.sessions.get(&key.session)?;
        objects.get(&key.object)
    }
}
