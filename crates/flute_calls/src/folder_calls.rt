//! The calls of a system for a folder that is made, and filled with files.
ghost use Rattle.std.specs.Prelude.{◌≡◌, true, IfOk, OnOk, OnErr};
ghost use Rattle.flute_calls.specs.Disks.{CreatesWithin, MakesFolder, Syncs, Touches, Unlinks};
ghost use Rattle.flute_calls.specs.Disks.{UnlinksWithin};
ghost use Rattle.flute_calls.specs.Moments.{Does, Passes, IsSame};

use crate::calls::{CallFault, Calls};

/// Where each method is one call of the system, but for `empty_folder`.
///
/// An open folder is a file to the disk, which has it once it has its names. The files in such a
/// folder are told by their numbers, and not by their names: a path in it is given to no other
/// method than those that say so. A call that fails leaves all as it was, if it doesn't say
/// otherwise.
pub trait FolderCalls: Calls {
    /// Makes a folder of this name, without files.
    ///
    /// # Errors
    ///
    /// If the call failed; `AlreadyExists` if something has the name.
    fn create_folder(&mut self, name: &str) -> Result<(), CallFault>
        ensures made { Self.told ≡ true → OnOk result (
            Does (MakesFolder name.now) (Self.run self.old) (Self.run self.new)) }
        ensures refused { Self.told ≡ true → OnErr result (
            Passes IsSame IsSame (Self.run self.old) (Self.run self.new)) };

    /// Whether what has this name is a folder, and no link to one; `None` if nothing has it.
    ///
    /// # Errors
    ///
    /// If the call failed.
    fn is_folder(&mut self, name: &str) -> Result<Option<bool>, CallFault>
        ensures same { Self.told ≡ true → Self.run self.new ≡ Self.run self.old };

    /// Removes the files in an open folder, which has this name. That takes many calls.
    ///
    /// # Errors
    ///
    /// If a call failed: some of the files may be gone then. `AlreadyExists` if the folder has
    /// anything but regular files; nothing is removed then.
    fn empty_folder(&mut self, folder: &Self::File, name: &str) -> Result<(), CallFault>
        ensures touches { Self.told ≡ true → Passes
            (Touches (Self.number folder.now)) (Touches (Self.number folder.now))
            (Self.run self.old) (Self.run self.new) };

    /// Makes an empty file at this path, which is in the open folder, with these permissions less
    /// those that the user's mask takes away, and opens it for writing.
    ///
    /// # Errors
    ///
    /// If the call failed; `AlreadyExists` if something has the path.
    fn create_within(
        &mut self,
        folder: &Self::File,
        path: &str,
        mode: u32,
    ) -> Result<Self::File, CallFault>
        ensures made { Self.told ≡ true → IfOk result (λ file.
            Does (CreatesWithin (Self.number folder.now) (Self.number file))
            (Self.run self.old) (Self.run self.new)) }
        ensures refused { Self.told ≡ true → OnErr result (
            Passes IsSame IsSame (Self.run self.old) (Self.run self.new)) };

    /// Removes the file at this path, which is in the open folder.
    ///
    /// # Errors
    ///
    /// If the call failed.
    fn unlink_within(&mut self, folder: &Self::File, path: &str) -> Result<(), CallFault>
        ensures removed { Self.told ≡ true → OnOk result (
            Does (UnlinksWithin (Self.number folder.now)) (Self.run self.old) (Self.run self.new)) }
        ensures refused { Self.told ≡ true → OnErr result (
            Passes IsSame IsSame (Self.run self.old) (Self.run self.new)) };

    /// Waits until the disk has the names in the open folder. A file system without such a call for
    /// folders succeeds.
    ///
    /// # Errors
    ///
    /// If the call failed. Which of them it has is then not known.
    fn sync_names(&mut self, folder: &Self::File) -> Result<(), CallFault>
        ensures synced { Self.told ≡ true → OnOk result (
            Does (Syncs (Self.number folder.now)) (Self.run self.old) (Self.run self.new)) }
        ensures refused { Self.told ≡ true → OnErr result (
            Passes (Touches (Self.number folder.now)) (Touches (Self.number folder.now))
            (Self.run self.old) (Self.run self.new)) };

    /// Removes the name of a folder that has no files.
    ///
    /// # Errors
    ///
    /// If the call failed.
    fn remove_folder(&mut self, name: &str) -> Result<(), CallFault>
        ensures removed { Self.told ≡ true → OnOk result (
            Does (Unlinks name.now) (Self.run self.old) (Self.run self.new)) }
        ensures refused { Self.told ≡ true → OnErr result (
            Passes IsSame IsSame (Self.run self.old) (Self.run self.new)) };
}
