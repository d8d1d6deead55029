//! What an output needs of the folder that OUT is in.
ghost use Rattle.std.specs.Prelude.{◌≡◌, ℕ, ◌+◌, ◌<◌, ◌≤◌, List, [], length, take};
ghost use Rattle.std.specs.Prelude.{IfOk, OnOk, OnErr, Option, if◌then◌else◌, is_ok};
ghost use Rattle.flute_output.specs.Entries.{Entries, Leads, Does, OutStays, Takes, Flushes};
ghost use Rattle.flute_output.specs.Entries.{created, synced, put_in_place, names_synced, removed};
ghost use Rattle.flute_output.specs.OutMoments.{Moment, Steady, Follows, replaced, settled};

use flute_parts::DeviceFault;

/// A folder, as far as an output needs it: the name OUT, and a file beside it, which takes bytes.
pub trait Folder {
    // What the two names lead to, if contracts see that.
    ghost entries: { Self → Option Entries };

    // What OUT was at each moment so far, the latest first, if contracts see that.
    ghost moments: { Self → List Moment };

    // How often a call has failed.
    ghost failures: { Self → ℕ };

    /// Makes the file beside OUT, empty.
    ///
    /// # Errors
    ///
    /// `DeviceFault` if it cannot be made. OUT is as before.
    fn create(&mut self) -> Result<(), DeviceFault>
        ensures made { OnOk result (Does created (entries self.old) (entries self.new)) }
        ensures refused { OnErr result (Leads OutStays (entries self.old) (entries self.new)) }
        ensures steady { Steady (moments self.old) (moments self.new) }
        ensures failures { failures self.new
            ≡ failures self.old + (if is_ok result then 0 else 1) };

    /// Takes the first bytes of `bytes` for the file beside OUT, and returns how many: at least
    /// one, unless `bytes` is empty. They may wait in memory, and those that did may go to the
    /// file.
    ///
    /// # Errors
    ///
    /// `DeviceFault` if the device failed. It then took nothing.
    fn write(&mut self, bytes: &[u8]) -> Result<usize, DeviceFault>
        ensures bound { IfOk result (λ n. n ≤ length bytes.now) }
        ensures progress { 0 < length bytes.now → IfOk result (λ n. 0 < n) }
        ensures taken { IfOk result (λ n.
            Leads (Takes (take n bytes.now)) (entries self.old) (entries self.new)) }
        ensures refused { OnErr result (Leads (Takes []) (entries self.old) (entries self.new)) }
        ensures steady { Steady (moments self.old) (moments self.new) }
        ensures failures { failures self.new
            ≡ failures self.old + (if is_ok result then 0 else 1) };

    /// Hands the bytes that wait on to the file beside OUT.
    ///
    /// # Errors
    ///
    /// `DeviceFault` if the device failed. Which of them it has is then not known.
    fn flush(&mut self) -> Result<(), DeviceFault>
        ensures flushed { OnOk result (Leads Flushes (entries self.old) (entries self.new)) }
        ensures refused { OnErr result (Leads OutStays (entries self.old) (entries self.new)) }
        ensures steady { Steady (moments self.old) (moments self.new) }
        ensures failures { failures self.new
            ≡ failures self.old + (if is_ok result then 0 else 1) };

    /// Waits until the disk has all of the file beside OUT.
    ///
    /// # Errors
    ///
    /// `DeviceFault` if the disk failed.
    fn sync(&mut self) -> Result<(), DeviceFault>
        ensures synced { OnOk result (Does synced (entries self.old) (entries self.new)) }
        ensures refused { OnErr result (Leads OutStays (entries self.old) (entries self.new)) }
        ensures steady { Steady (moments self.old) (moments self.new) }
        ensures failures { failures self.new
            ≡ failures self.old + (if is_ok result then 0 else 1) };

    /// Renames the file beside OUT to OUT, which replaces what had that name, in one step.
    ///
    /// # Errors
    ///
    /// `DeviceFault` if that failed. Both entries are as before.
    fn put_in_place(&mut self) -> Result<(), DeviceFault>
        ensures put { OnOk result (Does put_in_place (entries self.old) (entries self.new)) }
        ensures refused { OnErr result (Leads OutStays (entries self.old) (entries self.new)) }
        ensures given { OnOk result (Leads (λ old _. Follows (replaced old.beside)
            (moments self.old) (moments self.new)) (entries self.old) (entries self.new)) }
        ensures steady { OnErr result (Steady (moments self.old) (moments self.new)) }
        ensures failures { failures self.new
            ≡ failures self.old + (if is_ok result then 0 else 1) };

    /// Waits until the disk has both names as they are. It also succeeds if the file system has no
    /// such call for folders, or the folder may not be read.
    ///
    /// # Errors
    ///
    /// `DeviceFault` if the disk failed. Which of them it has is then not known.
    fn sync_names(&mut self) -> Result<(), DeviceFault>
        ensures synced { OnOk result (Does names_synced (entries self.old) (entries self.new)) }
        ensures refused { OnErr result (Does (λ same. same) (entries self.old) (entries self.new)) }
        ensures sure { OnOk result (Follows settled (moments self.old) (moments self.new)) }
        ensures steady { OnErr result (Steady (moments self.old) (moments self.new)) }
        ensures failures { failures self.new
            ≡ failures self.old + (if is_ok result then 0 else 1) };

    /// Removes the file beside OUT.
    ///
    /// # Errors
    ///
    /// `DeviceFault` if that failed. It is as before.
    fn remove(&mut self) -> Result<(), DeviceFault>
        ensures removed { OnOk result (Does removed (entries self.old) (entries self.new)) }
        ensures refused { OnErr result (Leads OutStays (entries self.old) (entries self.new)) }
        ensures steady { Steady (moments self.old) (moments self.new) }
        ensures failures { failures self.new
            ≡ failures self.old + (if is_ok result then 0 else 1) };
}
