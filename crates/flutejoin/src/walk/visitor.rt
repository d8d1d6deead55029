//! What is told of objects as a walk goes over them.
ghost use Rattle.std.specs.Prelude.{◌≡◌, ◌+◌, ◌<◌, ◌∷◌, ◌++◌, [], List, ℕ, Option, Some, None};
ghost use Rattle.std.specs.Prelude.{OnOk, if◌then◌else◌, is_ok, length};
ghost use Rattle.flutejoin.specs.Progress.{EndsAs, IsTold, Progress, at_start, lacking, with_gap};
ghost use Rattle.flutejoin.specs.Progress.{with_value};
ghost use Rattle.flutejoin.specs.Told.{Told};
ghost use Rattle.flutejoin.specs.declared.limits.TheConstants.{MAX_ENTRIES};

use flute_parts::{DeviceFault, Info, Key};
use flute_store::{Gap, Status};

/// What is told of objects as a walk goes over them, object after object in the order of their
/// keys. Of an object without information, or with two values of it, nothing is told but its end.
///
/// Each call may fail, with `DeviceFault`: nothing more is told then.
pub trait Visitor {
    // What is known of its devices as they were.
    ghost At: { Type 0 };

    // It was told of these objects, and so far of the one that is open.
    ghost Has: { At → List Told → Option Progress → Self → Type 0 };

    // What no call changes, not even one that fails.
    ghost Kept: { Type 0 };

    ghost kept: { Self → Kept };

    // How often its devices have failed.
    ghost fails: { Self → ℕ };

    /// An object begins, with one value of its information.
    fn begins(&mut self, key: &Key, info: &Info) -> Result<(), DeviceFault>
        ensures told { (at : At) (objects : List Told) → Has at objects None self.old
            → OnOk result (Has at objects (Some (at_start key.now info.now)) self.new) }
        ensures kept { kept self.new ≡ kept self.old }
        ensures failures { fails self.new ≡ fails self.old + (if is_ok result then 0 else 1) };

    /// The next symbol of the partition is held as one fitting value.
    fn fits(&mut self, value: &[u8]) -> Result<(), DeviceFault>
        ensures told { (at : At) (objects : List Told) (p : Progress)
            → Has at objects (Some p) self.old
            → OnOk result (Has at objects (Some (with_value value.now p)) self.new) }
        ensures kept { kept self.new ≡ kept self.old }
        ensures failures { fails self.new ≡ fails self.old + (if is_ok result then 0 else 1) };

    /// The next symbol of the partition is held, in conflict or of a length that does not fit. The
    /// gap that it is in comes later.
    fn lacks(&mut self) -> Result<(), DeviceFault>
        ensures told { (at : At) (objects : List Told) (p : Progress)
            → Has at objects (Some p) self.old
            → OnOk result (Has at objects (Some (lacking p)) self.new) }
        ensures kept { kept self.new ≡ kept self.old }
        ensures failures { fails self.new ≡ fails self.old + (if is_ok result then 0 else 1) };

    /// The next gap of the object.
    fn gap(&mut self, gap: &Gap) -> Result<(), DeviceFault>
        ensures told { (at : At) (objects : List Told) (p : Progress)
            → Has at objects (Some p) self.old
            → OnOk result (Has at objects (Some (with_gap gap.now p)) self.new) }
        ensures kept { kept self.new ≡ kept self.old }
        ensures failures { fails self.new ≡ fails self.old + (if is_ok result then 0 else 1) };

    /// An object ends: so much is held of it, and so many of its symbols are in conflict, whether
    /// or not its partition has them.
    fn ends(&mut self, key: &Key, status: Status, conflicts: u64) -> Result<(), DeviceFault>
        requires { (at : At) × (objects : List Told) × (progress : Option Progress)
            × (length objects < MAX_ENTRIES) × Has at objects progress self.old }
        ensures told { (at : At) (objects : List Told) (progress : Option Progress) (t : Told)
            → t.key ≡ key.now → t.status ≡ status → t.conflicts ≡ conflicts → IsTold t
            → EndsAs t progress → Has at objects progress self.old
            → OnOk result (Has at (objects ++ t ∷ []) None self.new) }
        ensures kept { kept self.new ≡ kept self.old }
        ensures failures { fails self.new ≡ fails self.old + (if is_ok result then 0 else 1) };
}
