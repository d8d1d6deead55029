//! How much of an object is held: whole, so much is missing, or its information is not known.
ghost use Rattle.std.specs.Prelude.{◌≡◌, ◌<◌, ◌≤◌, ◌^◌, MatchOption, [], length, flat_map};
ghost use Rattle.flute_store.specs.Objects.{listed, AreRuns};
ghost use Rattle.flute_store.specs.Status.{Adds, CanAdd, AddsTurn, IsCount, status_of, TellsStatus};
ghost use Rattle.flute_store.specs.Found.{IsUnheard};

use crate::gap::{Gap, Reason};
use crate::gaps::Gaps;
use crate::store::Store;
use crate::turn::Turn;
use flute_join::Cell;
use flute_parts::Key;

/// How much of an object is held.
#[derive(Clone, Copy, Debug, PartialEq, Eq)]
pub enum Status {
    /// Symbols are held, and no transmission information.
    NoInformation,
    /// Two values of the transmission information came.
    ConflictingInformation,
    /// Some symbols of the partition are not held as one fitting value.
    Partial {
        /// How many of them are not held.
        missing: u64,
        /// How many have two values.
        conflicting: u64,
        /// How many have one value, of a length that does not fit.
        misfit: u64,
    },
    /// Each symbol of the partition is held as one fitting value.
    Whole {
        /// The transfer length: how many bytes the object has.
        length: u64,
    },
}

/// How many symbols are wanted for each reason.
#[derive(Drop)]
pub struct Wanted {
    pub missing: u64,
    pub conflicting: u64,
    pub misfit: u64,
}

impl Wanted {
    /// None.
    pub fn none() -> Wanted
        ensures { IsCount result [] }
    {
        Wanted {
            missing: 0,
            conflicting: 0,
            misfit: 0,
        }
    }

    /// Adds the symbols of a gap.
    pub fn add(&mut self, gap: Gap)
        requires order { gap.first ≤ gap.last }
        requires missing { self.old.missing < 2 ^ 33 }
        requires conflicting { self.old.conflicting < 2 ^ 33 }
        requires misfit { self.old.misfit < 2 ^ 33 }
        ensures { Adds gap self.old self.new }
    {
        let symbols = u64::from(gap.last) + 1 - u64::from(gap.first);
        match gap.reason {
            Reason::Missing => self.missing += symbols,
            Reason::Conflicting => self.conflicting += symbols,
            Reason::Misfit => self.misfit += symbols,
        }
    }

    /// Adds the symbols of the gap that a turn gave, if it gave one.
    pub fn add_turn(&mut self, turn: &Option<Turn>)
        requires { CanAdd turn.now self.old }
        ensures { AddsTurn turn.now self.old self.new }
    {
        if let Some(Turn::Gap(gap)) = turn {
            self.add(*gap);
        }
    }

    /// How much is held of an object of so many bytes, of which these are wanted.
    pub fn status(&self, length: u64) -> Status
        ensures { result ≡ status_of self.now length }
    {
        if self.missing == 0 && self.conflicting == 0 && self.misfit == 0 {
            return Status::Whole { length };
        }
        Status::Partial {
            missing: self.missing,
            conflicting: self.conflicting,
            misfit: self.misfit,
        }
    }
}

impl<const SESSIONS: u32, const OBJECTS: u32, const SYMBOLS: u32> Store<
    SESSIONS,
    OBJECTS,
    SYMBOLS,
> {
    /// How much of an object is held. None if nothing of it is. A held symbol that the partition
    /// does not have is not counted.
    ///
    /// It takes no memory, and time by the number of blocks and of held symbols,
    /// however long the object is.
    pub fn status(&self, key: &Key) -> Option<Status>
        ensures { MatchOption result (IsUnheard self.now key.now)
            (λ status. TellsStatus self.now key.now status) }
    {
        let Some(object) = self.object(key) else {
            return None;
        };
        let info = match &object.info {
            Cell::Absent => return Some(Status::NoInformation),
            Cell::Conflict => return Some(Status::ConflictingInformation),
            Cell::One(info) => info,
        };
        let mut gaps = Gaps::new(info, object.symbols.iter());
        let mut wanted = Wanted::none();
        while let Some(gap) = gaps.next() {
            wanted.add(gap);
        }
        Some(wanted.status(info.length()))
    }
}
