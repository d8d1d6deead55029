//! Counts sessions, objects and symbols of addresses that rise, against the limits.

ghost use Rattle.std.specs.Prelude.{◌≡◌, ◌+◌, ◌<◌, ◌≤◌, true, false};

use crate::address::{Address, Part};
use crate::key::Key;

/// How many sessions, objects of the last session and symbols of the last object were named by
/// addresses that came in rising order. It knows whether they pass a limit: `SESSIONS` sessions,
/// `OBJECTS` objects of one session or `SYMBOLS` symbols of one object.
///
/// As the addresses rise, a session, an object or a symbol that differs from the last was not named
/// before. So a tally has the same size however many addresses it has counted.
#[derive(Clone, Copy)]
pub struct Tally<const SESSIONS: u32, const OBJECTS: u32, const SYMBOLS: u32> {
    last: Option<Key>,
    sessions: u32,
    objects: u32,
    symbols: u32,
}

impl<const SESSIONS: u32, const OBJECTS: u32, const SYMBOLS: u32> Tally<
    SESSIONS,
    OBJECTS,
    SYMBOLS,
> {
    ghost use Rattle.std.specs.Prelude.{List, [], ◌∷◌, ◌++◌};
    ghost use Rattle.flute_parts.specs.declared.fact.Fact.{Fact};
    ghost use Rattle.flute_parts.specs.Addresses.{address};
    ghost use Rattle.flute_parts.specs.Facts.{IsRising};
    ghost use Rattle.flute_parts.specs.Limits.{Over};
    ghost use Rattle.flute_parts.specs.Tally.{Counts, CountsKey};

    /// The tally of no address. It takes no memory.
    pub fn new() -> Self
        ensures { Counts SESSIONS OBJECTS SYMBOLS [] result }
    {
        Tally {
            last: None,
            sessions: 0,
            objects: 0,
            symbols: 0,
        }
    }

    /// Counts the next address. True if no limit is passed by it and those before. Each has to be
    /// after all that were counted: once one was not, or the result was false, later results mean
    /// nothing.
    pub fn count(&mut self, next: &Address) -> bool
        ensures within { (F : List Fact) (f : Fact) → address f ≡ next.now → IsRising (F ++ f ∷ [])
            → Counts SESSIONS OBJECTS SYMBOLS F self.old
            → result ≡ true → Counts SESSIONS OBJECTS SYMBOLS (F ++ f ∷ []) self.new }
        ensures over { (F : List Fact) (f : Fact) → address f ≡ next.now → IsRising (F ++ f ∷ [])
            → Counts SESSIONS OBJECTS SYMBOLS F self.old
            → result ≡ false → Over (F ++ f ∷ []) SESSIONS OBJECTS SYMBOLS }
    {
        if !self.count_key(&next.key) {
            return false;
        }
        match next.part {
            Part::Info => true,
            Part::Symbol(_) => add_one(&mut self.symbols, SYMBOLS),
        }
    }

    // Counts the session and the object of the next address, each if it is new.
    fn count_key(&mut self, key: &Key) -> bool
        ensures within { (F : List Fact) (f : Fact) → (address f).key ≡ key.now
            → IsRising (F ++ f ∷ [])
            → Counts SESSIONS OBJECTS SYMBOLS F self.old
            → result ≡ true → CountsKey SESSIONS OBJECTS SYMBOLS F f self.new }
        ensures over { (F : List Fact) (f : Fact) → (address f).key ≡ key.now
            → IsRising (F ++ f ∷ [])
            → Counts SESSIONS OBJECTS SYMBOLS F self.old
            → result ≡ false → Over (F ++ f ∷ []) SESSIONS OBJECTS SYMBOLS }
    {
        let last = self.last;
        match last {
            Some(last) if last == *key => true,
            Some(last) if last.session == key.session => {
                self.last = Some(*key);
                self.symbols = 0;
                add_one(&mut self.objects, OBJECTS)
            }
            _ => {
                self.last = Some(*key);
                self.objects = 0;
                self.symbols = 0;
                add_one(&mut self.sessions, SESSIONS) && add_one(&mut self.objects, OBJECTS)
            }
        }
    }
}

// Adds one to a count that is below the limit. False if it is not.
fn add_one(count: &mut u32, limit: u32) -> bool
    ensures added { result ≡ true → (count.old < limit) × (count.new ≡ count.old + 1) }
    ensures full { result ≡ false → limit ≤ count.old }
{
    let is_below = *count < limit;
    if is_below {
        *count += 1;
    }
    is_below
}
