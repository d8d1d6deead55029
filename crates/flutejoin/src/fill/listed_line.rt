//! A line of those that `gaps` prints of a journal, without options.
ghost use Rattle.std.specs.Prelude.{◌≡◌, ◌↔◌, true, option_copied};
ghost use Rattle.flutejoin.specs.FillLists.{MayCome, begins, ends, has_gaps, is_missing_by};
ghost use Rattle.flutejoin.specs.FillLists.{object_of};

use flute_parts::{Address, Key, Part, SymbolId};
use flute_store::{Gap, Reason, Status};
use std::cmp::Ordering;

/// A line that `gaps` prints of an object.
#[derive(Clone, Copy, Debug, PartialEq, Eq)]
pub enum ListedLine {
    /// How much is held of the object.
    Object { key: Key, status: Status },
    /// A gap of the object, whose name is in a line before.
    Gap { key: Key, gap: Gap },
}

impl ListedLine {
    /// The object that it tells of.
    pub fn key(&self) -> Key
        ensures { result ≡ object_of self.now }
    {
        match self {
            ListedLine::Object { key, .. } | ListedLine::Gap { key, .. } => *key,
        }
    }

    /// The first address that it tells of: of how much is held, that of the information.
    pub fn begins(&self) -> Address
        ensures { result ≡ begins self.now }
    {
        let part = match self {
            ListedLine::Object { .. } => Part::Info,
            ListedLine::Gap { gap, .. } => Part::Symbol(SymbolId {
                sbn: gap.sbn,
                esi: gap.first,
            }),
        };
        Address {
            key: self.key(),
            part,
        }
    }

    /// The last address that it tells of.
    pub fn ends(&self) -> Address
        ensures { result ≡ ends self.now }
    {
        let part = match self {
            ListedLine::Object { .. } => Part::Info,
            ListedLine::Gap { gap, .. } => Part::Symbol(SymbolId {
                sbn: gap.sbn,
                esi: gap.last,
            }),
        };
        Address {
            key: self.key(),
            part,
        }
    }

    /// Whether it may be the next line after this one, or the first one.
    pub fn may_come_after(&self, before: Option<&ListedLine>) -> bool
        ensures { result ≡ true ↔ MayCome (option_copied before.entry) self.now }
    {
        match (before, self) {
            (None, ListedLine::Object { .. }) => true,
            (None, ListedLine::Gap { .. }) => false,
            (Some(before), ListedLine::Object { key, .. }) => {
                before.key().cmp(key) == Ordering::Less
            }
            (Some(before), ListedLine::Gap { key, gap }) => {
                before.has_gaps()
                    && before.key() == *key
                    && gap.first <= gap.last
                    && before.ends().cmp(&self.begins()) == Ordering::Less
            }
        }
    }

    /// Whether it tells that what is at this address is missing.
    pub fn is_missing(&self, at: &Address) -> bool
        ensures { result ≡ is_missing_by at.now self.now }
    {
        let (ListedLine::Gap { key, gap }, Part::Symbol(id)) = (self, at.part) else {
            return false;
        };
        *key == at.key
            && gap.reason == Reason::Missing
            && id.sbn == gap.sbn
            && gap.first <= id.esi
            && id.esi <= gap.last
    }

    // Whether a gap of its object may follow.
    fn has_gaps(&self) -> bool
        ensures { result ≡ has_gaps self.now }
    {
        match self {
            ListedLine::Object {
                status: Status::Partial { .. },
                ..
            } => true,
            ListedLine::Object { .. } => false,
            ListedLine::Gap { .. } => true,
        }
    }
}
