//! The calls of a system.
ghost use Rattle.std.specs.Prelude.{◌≡◌, ◌≢◌, ℕ, ◌<◌, ◌≤◌, Bool, List, Option, Some, true};
ghost use Rattle.std.specs.Prelude.{IfOk, OnOk, OnErr, length, option_map, take};
ghost use Rattle.flute_calls.specs.Disks.{Touches, Creates, Grows, Spoils, Syncs, Renames, Unlinks};
ghost use Rattle.flute_calls.specs.Disks.{Confirms};
ghost use Rattle.flute_calls.specs.Moments.{Run, Does, Passes, IsSame};

use crate::file_id::FileId;

/// Why a call failed.
#[derive(Clone, Copy, Debug, PartialEq, Eq)]
pub enum CallFault {
    /// Nothing has the name.
    NotFound,
    /// Something has the name.
    AlreadyExists,
    /// Another program has locked the file.
    Locked,
    /// Any other reason.
    Other,
}

/// What a call reports of a file.
#[derive(Clone, Copy, Drop)]
pub struct Seen {
    /// Which file it is.
    pub id: FileId,
    /// Whether it is a regular file.
    pub is_regular: bool,
}

/// Where each method is one call of the system.
///
/// A call that fails leaves all names and files as they were, if it doesn't say otherwise.
pub trait Calls {
    ghost use Rattle.flute_calls.specs.declared.file_id.FileId.{FileId};

    /// An open file.
    type File: Drop;

    /// An open folder.
    type Folder: Drop;

    // Whether contracts see the disk. If not, `run` means nothing.
    ghost told: { Bool };

    // The disk, and what it was at each moment.
    ghost run: { Self → Run };

    // Which file it is.
    ghost number: { Self.File → ℕ };

    // Which file has this identity.
    ghost identified: { FileId → ℕ };

    // The names that are in a folder.
    ghost has_name: { Self.Folder → List ℕ → Bool };

    /// Reports what has this name, a link too; `None` if nothing has it.
    ///
    /// # Errors
    ///
    /// If the call failed.
    fn look(&mut self, name: &str) -> Result<Option<Seen>, CallFault>
        ensures seen { told ≡ true → IfOk result (λ seen.
            option_map (λ s. identified s.id) seen ≡ ((run self.old).now.names name.now).leads) }
        ensures same { told ≡ true → run self.new ≡ run self.old };

    /// Reports what this open file is.
    ///
    /// # Errors
    ///
    /// If the call failed.
    fn look_at(&mut self, file: &Self::File) -> Result<Seen, CallFault>
        ensures seen { told ≡ true → IfOk result (λ s. identified s.id ≡ number file.now) }
        ensures same { told ≡ true → run self.new ≡ run self.old };

    /// Opens a file for reading.
    ///
    /// # Errors
    ///
    /// If the call failed.
    fn open(&mut self, name: &str) -> Result<Self::File, CallFault>
        ensures opened { told ≡ true → IfOk result (λ file.
            ((run self.old).now.names name.now).leads ≡ Some (number file)) }
        ensures same { told ≡ true → run self.new ≡ run self.old };

    /// Opens a file for reading and writing.
    ///
    /// # Errors
    ///
    /// If the call failed.
    fn open_to_write(&mut self, name: &str) -> Result<Self::File, CallFault>
        ensures opened { told ≡ true → IfOk result (λ file.
            ((run self.old).now.names name.now).leads ≡ Some (number file)) }
        ensures same { told ≡ true → run self.new ≡ run self.old };

    /// Opens the folder that a name is in. If that may not be read, no sync of it does anything.
    ///
    /// # Errors
    ///
    /// If the call failed.
    fn open_parent(&mut self, name: &str) -> Result<Self::Folder, CallFault>
        ensures opened { told ≡ true
            → IfOk result (λ folder. has_name folder name.now ≡ true) }
        ensures same { told ≡ true → run self.new ≡ run self.old };

    /// Locks the file. A file system without locks is used without them.
    ///
    /// # Errors
    ///
    /// `Locked` if another program has it locked.
    fn lock(&mut self, file: &Self::File) -> Result<(), CallFault>
        ensures same { told ≡ true → run self.new ≡ run self.old };

    /// Gives a file these permissions.
    ///
    /// # Errors
    ///
    /// If the call failed.
    fn set_mode(&mut self, file: &Self::File, mode: u32) -> Result<(), CallFault>
        ensures same { told ≡ true → run self.new ≡ run self.old };

    /// Makes a file of this name, empty, with these permissions less those that the user's mask
    /// takes away, and opens it for writing.
    ///
    /// # Errors
    ///
    /// If the call failed; `AlreadyExists` if something has the name.
    fn create_new(&mut self, name: &str, mode: u32) -> Result<Self::File, CallFault>
        ensures made { told ≡ true → IfOk result (λ file.
            Does (Creates name.now (number file)) (run self.old) (run self.new)) }
        ensures refused { told ≡ true → OnErr result (
            Passes IsSame IsSame (run self.old) (run self.new)) };

    /// Appends the first bytes of `bytes` to the file, and returns how many: at least one, unless
    /// `bytes` is empty.
    ///
    /// # Errors
    ///
    /// If the call failed. What the file has got behind what it had is then not known.
    fn write(&mut self, file: &mut Self::File, bytes: &[u8]) -> Result<usize, CallFault>
        ensures bound { IfOk result (λ n. n ≤ length bytes.now) }
        ensures progress { 0 < length bytes.now → IfOk result (λ n. 0 < n) }
        ensures same_file { number file.new ≡ number file.old }
        ensures written { told ≡ true → IfOk result (λ n.
            Passes (Touches (number file.old)) (Grows (number file.old) (take n bytes.now))
            (run self.old) (run self.new)) }
        ensures refused { told ≡ true → OnErr result (
            Passes (Touches (number file.old)) (Spoils (number file.old))
            (run self.old) (run self.new)) };

    /// Waits until the disk has all of the file.
    ///
    /// # Errors
    ///
    /// If the call failed. What the file then has is not known.
    fn fsync(&mut self, file: &Self::File) -> Result<(), CallFault>
        ensures synced { told ≡ true → OnOk result (
            Does (Syncs (number file.now)) (run self.old) (run self.new)) }
        ensures refused { told ≡ true → OnErr result (
            Passes (Touches (number file.now)) (Touches (number file.now))
            (run self.old) (run self.new)) };

    /// Gives the file of one name to another name, in one step.
    ///
    /// # Errors
    ///
    /// If the call failed.
    fn rename(&mut self, source: &str, target: &str) -> Result<(), CallFault>
        requires { source.now ≢ target.now }
        ensures renamed { told ≡ true → OnOk result (
            Does (Renames source.now target.now) (run self.old) (run self.new)) }
        ensures refused { told ≡ true → OnErr result (
            Passes IsSame IsSame (run self.old) (run self.new)) };

    /// Removes the name of a file.
    ///
    /// # Errors
    ///
    /// If the call failed.
    fn unlink(&mut self, name: &str) -> Result<(), CallFault>
        ensures removed { told ≡ true → OnOk result (
            Does (Unlinks name.now) (run self.old) (run self.new)) }
        ensures refused { told ≡ true → OnErr result (
            Passes IsSame IsSame (run self.old) (run self.new)) };

    /// Waits until the disk has the names of the folder as they are. A file system without such a
    /// call for folders succeeds.
    ///
    /// # Errors
    ///
    /// If the call failed. Which of them it has is then not known.
    fn sync_folder(&mut self, folder: &Self::Folder) -> Result<(), CallFault>
        ensures synced { told ≡ true → OnOk result (
            Does (Confirms (has_name folder.now)) (run self.old) (run self.new)) }
        ensures refused { told ≡ true → OnErr result (
            Passes IsSame IsSame (run self.old) (run self.new)) };
}
