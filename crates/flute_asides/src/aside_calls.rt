//! The calls of a system for a file that is put aside.
ghost use Rattle.std.specs.Prelude.{◌≡◌, ℕ, ◌+◌, ◌<◌, ◌≤◌, Bool, Some, true, length, take};
ghost use Rattle.std.specs.Prelude.{IfOk, OnOk, OnErr, if◌then◌else◌, is_ok};
ghost use Rattle.std.specs.Io.KnownBytes.{ReadConsumes};
ghost use Rattle.flute_calls.specs.Disks.{Touches, Creates, Grows, Spoils, Unlinks};
ghost use Rattle.flute_calls.specs.Moments.{Run, Does, Passes, IsSame};
ghost use Rattle.flute_asides.specs.Asides.{Opened, Empties, IsAtEnd, IsVoid, moved, rest_of};

use flute_calls::CallFault;

/// Where each method is one call of the system.
///
/// A call that fails leaves all names and files as they were, if it doesn't say otherwise.
pub trait AsideCalls {
    /// An open file, which is read and written from one place on.
    type File: Drop;

    // Whether contracts see the disk. If not, `run` means nothing.
    ghost told: { Bool };

    // The disk, and what it was at each moment.
    ghost run: { Self → Run };

    ghost opened: { Self.File → Opened };

    // How often a name could not be removed.
    ghost stuck: { Self → ℕ };

    /// Makes a file of this name, empty, with these permissions less those that the user's mask
    /// takes away, and opens it for reading and writing.
    ///
    /// # Errors
    ///
    /// If the call failed; `AlreadyExists` if something has the name.
    fn create_new(&mut self, name: &str, mode: u32) -> Result<Self::File, CallFault>
        ensures made { told ≡ true → IfOk result (λ file.
            Does (Creates name.now (opened file).number) (run self.old) (run self.new)) }
        ensures start { told ≡ true → IfOk result (λ file. (opened file).at ≡ 0) }
        ensures mode { told ≡ true → IfOk result (λ file. (opened file).mode ≡ mode) }
        ensures refused { told ≡ true → OnErr result (
            Passes IsSame IsSame (run self.old) (run self.new)) }
        ensures stuck { stuck self.new ≡ stuck self.old };

    /// Whether what has this name is a regular file without bytes, and no link.
    ///
    /// # Errors
    ///
    /// If the call failed.
    fn is_empty(&mut self, name: &str) -> Result<bool, CallFault>
        ensures seen { told ≡ true → IfOk result (λ is.
            is ≡ true → IsVoid (run self.old).now name.now) }
        ensures same { told ≡ true → run self.new ≡ run self.old }
        ensures stuck { stuck self.new ≡ stuck self.old };

    /// Removes the name of a file, if there is one.
    ///
    /// # Errors
    ///
    /// If the call failed.
    fn unlink(&mut self, name: &str) -> Result<(), CallFault>
        ensures removed { told ≡ true → OnOk result (
            Does (Unlinks name.now) (run self.old) (run self.new)) }
        ensures refused { told ≡ true → OnErr result (
            Passes IsSame IsSame (run self.old) (run self.new)) }
        ensures stuck { stuck self.new ≡ stuck self.old + (if is_ok result then 0 else 1) };

    /// Writes the first bytes of `bytes` to the file, and returns how many: at least one, unless
    /// `bytes` is empty. No clause says what becomes of a file that is not written at its end.
    ///
    /// # Errors
    ///
    /// If the call failed. What the file has got behind what it had is then not known.
    fn write(&mut self, file: &mut Self::File, bytes: &[u8]) -> Result<usize, CallFault>
        ensures bound { IfOk result (λ n. n ≤ length bytes.now) }
        ensures progress { 0 < length bytes.now → IfOk result (λ n. 0 < n) }
        ensures written { told ≡ true → IsAtEnd (opened file.old) (run self.old).now
            → IfOk result (λ n. Passes (Touches (opened file.old).number)
            (Grows (opened file.old).number (take n bytes.now)) (run self.old) (run self.new)) }
        ensures moved { told ≡ true → IsAtEnd (opened file.old) (run self.old).now
            → IfOk result (λ n.
            opened file.new ≡ moved ((opened file.old).at + n) (opened file.old)) }
        ensures refused { told ≡ true → IsAtEnd (opened file.old) (run self.old).now
            → OnErr result (Passes (Touches (opened file.old).number)
            (Spoils (opened file.old).number) (run self.old) (run self.new)) }
        ensures same_file { (opened file.new).number ≡ (opened file.old).number }
        ensures stuck { stuck self.new ≡ stuck self.old };

    /// Lets the next read or write of the file begin at its start.
    ///
    /// # Errors
    ///
    /// If the call failed.
    fn rewind(&mut self, file: &mut Self::File) -> Result<(), CallFault>
        ensures rewound { told ≡ true → OnOk result (
            opened file.new ≡ moved 0 (opened file.old)) }
        ensures same_file { (opened file.new).number ≡ (opened file.old).number }
        ensures same { told ≡ true → run self.new ≡ run self.old }
        ensures stuck { stuck self.new ≡ stuck self.old };

    /// Puts the next bytes of the file at the front of `buffer`, and returns how many: none only at
    /// its end, or if `buffer` is empty.
    ///
    /// # Errors
    ///
    /// If the call failed. It then gave nothing, and `buffer` may hold anything.
    fn read(&mut self, file: &mut Self::File, buffer: &mut [u8]) -> Result<usize, CallFault>
        ensures bound { IfOk result (λ n. n ≤ length buffer.new) }
        ensures bytes { told ≡ true → ReadConsumes
            (Some (rest_of (opened file.old) (run self.old).now))
            (Some (rest_of (opened file.new) (run self.new).now)) result buffer.new }
        ensures same_file { (opened file.new).number ≡ (opened file.old).number }
        ensures same { told ≡ true → run self.new ≡ run self.old }
        ensures stuck { stuck self.new ≡ stuck self.old };

    /// Takes all its bytes from the file.
    ///
    /// # Errors
    ///
    /// If the call failed. What the file has is then not known.
    fn truncate(&mut self, file: &Self::File) -> Result<(), CallFault>
        ensures emptied { told ≡ true → OnOk result (
            Does (Empties (opened file.now).number) (run self.old) (run self.new)) }
        ensures refused { told ≡ true → OnErr result (
            Passes (Touches (opened file.now).number) (Touches (opened file.now).number)
            (run self.old) (run self.new)) }
        ensures stuck { stuck self.new ≡ stuck self.old };
}
