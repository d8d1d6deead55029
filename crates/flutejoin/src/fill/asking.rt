//! How much `fill` gives: all that may be lacking, or only what was named as missing.
ghost use Rattle.std.specs.Prelude.{◌≡◌};
ghost use Rattle.flutejoin.specs.FillLists.{wants};

use flute_parts::Part;
use flute_store::Status;

/// What is sent to one that said how much it holds of each object.
#[derive(Clone, Copy, Debug, PartialEq, Eq)]
pub enum Asking {
    /// All that it may lack: also of objects that it didn't tell of.
    All,
    /// Only what it named as missing.
    Only,
}

impl Asking {
    /// Whether a part of an object is sent, by how much of the object is held, if that was told,
    /// and whether the part was named as missing.
    pub fn wants(self, status: Option<Status>, is_missing: bool, part: Part) -> bool
        ensures { result ≡ wants self status is_missing part }
    {
        let is_info = part == Part::Info;
        match (status, self) {
            (None, Asking::All) => true,
            (None, Asking::Only) => false,
            (Some(Status::Whole { .. }), _) => false,
            (Some(Status::Partial { .. }), _) => is_missing,
            (Some(Status::NoInformation), Asking::All) => true,
            (Some(Status::NoInformation), Asking::Only) => is_info,
            (Some(Status::ConflictingInformation), Asking::All) => !is_info,
            (Some(Status::ConflictingInformation), Asking::Only) => false,
        }
    }
}
