//! What `gaps` prints of the objects: all gaps, conflicts, byte ranges or sums.
ghost use Rattle.std.specs.Prelude.{◌≡◌};
ghost use Rattle.flutejoin.specs.Styles.{is_right, is_shown, is_told, unplaced_in};

use crate::lines::form::Form;
use flute_store::{Reason, Status};

/// What `gaps` prints of the objects of a journal, and whether all of them have to be whole. If
/// nothing is set, all objects have a line, and all their gaps.
#[derive(Clone, Copy)]
pub struct Style {
    /// Whether it is a fault if an object that is listed is not whole. All is printed before.
    pub check: bool,
    /// Whether the objects of a session have one line together, and their gaps none.
    pub summary: bool,
    /// Whether only objects with a conflict are listed, and their gaps of symbols in conflict. The
    /// line of one tells how many of its conflicts are in no gap.
    pub conflicts: bool,
    /// Whether the ranges of an object's bytes that its gaps are have lines, and its gaps none.
    pub ranges: bool,
    /// In which form all lines are.
    pub form: Form,
}

impl Style {
    /// Whether an object of which so much is held, and so many symbols in conflict, is listed.
    pub(crate) fn tells(self, status: Status, conflicts: u64) -> bool
        ensures { result ≡ is_told self status conflicts }
    {
        if !self.conflicts || conflicts > 0 {
            return true;
        }
        match status {
            Status::ConflictingInformation => true,
            Status::Partial { conflicting, .. } => conflicting > 0,
            Status::NoInformation | Status::Whole { .. } => false,
        }
    }

    /// Whether a listed object of which so much is held is as it should be.
    pub(crate) fn is_right(self, status: Status) -> bool
        ensures { result ≡ is_right self status }
    {
        !self.conflicts && matches!(status, Status::Whole { .. })
    }

    /// How many of its symbols in conflict, so many in all, the line of an object tells of.
    pub(crate) fn unplaced(self, status: Status, conflicts: u64) -> u64
        ensures { result ≡ unplaced_in self status conflicts }
    {
        if !self.conflicts {
            return 0;
        }
        match status {
            Status::Partial { conflicting, .. } => conflicts.saturating_sub(conflicting),
            Status::NoInformation | Status::ConflictingInformation | Status::Whole { .. } => {
                conflicts
            }
        }
    }

    /// Whether the gaps of this reason have lines.
    pub(crate) fn shows(self, reason: Reason) -> bool
        ensures { result ≡ is_shown self reason }
    {
        match reason {
            Reason::Conflicting => !self.summary,
            Reason::Missing | Reason::Misfit => !self.summary && !self.conflicts,
        }
    }
}
