//! A folder that is new, as an output.
ghost use Rattle.std.specs.Prelude.{◌≡◌, ℕ, ◌+◌, OnOk, OnErr, Option, if◌then◌else◌, is_ok};
ghost use Rattle.flute_output.specs.NewFolders.{Places, LeadsTo, Makes, IsMade, FolderStays};
ghost use Rattle.flute_output.specs.NewFolders.{begins, puts, keeps, leaves, files_synced};
ghost use Rattle.flute_output.specs.NewFolders.{named_out, out_synced, removed};

use flute_parts::DeviceFault;

/// A folder OUT, which is not there yet: it is made beside its name, filled with files, one after
/// another, and then named OUT.
pub trait NewFolder {
    // What the two names lead to, if contracts see that.
    ghost places: { Self → Option Places };

    // How often a call has failed.
    ghost failures: { Self → ℕ };

    /// Makes the folder beside OUT, without files.
    ///
    /// # Errors
    ///
    /// `DeviceFault` if it cannot be made, or OUT is there. OUT is as before.
    fn create(&mut self) -> Result<(), DeviceFault>
        ensures made { OnOk result (LeadsTo IsMade (places self.old) (places self.new)) }
        ensures refused { OnErr result
            (LeadsTo FolderStays (places self.old) (places self.new)) }
        ensures failures { failures self.new
            ≡ failures self.old + (if is_ok result then 0 else 1) };

    /// Opens a file of this name in the folder beside OUT, empty. One file is open at a time.
    ///
    /// # Errors
    ///
    /// `DeviceFault` if it cannot be made.
    fn begin(&mut self, name: &[u8]) -> Result<(), DeviceFault>
        ensures begun { OnOk result (Makes (begins name.now) (places self.old) (places self.new)) }
        ensures refused { OnErr result
            (LeadsTo FolderStays (places self.old) (places self.new)) }
        ensures failures { failures self.new
            ≡ failures self.old + (if is_ok result then 0 else 1) };

    /// Takes the bytes for the open file. They may wait in memory.
    ///
    /// # Errors
    ///
    /// `DeviceFault` if the device failed. Which of them it took is then not known.
    fn put(&mut self, bytes: &[u8]) -> Result<(), DeviceFault>
        ensures put { OnOk result (Makes (puts bytes.now) (places self.old) (places self.new)) }
        ensures refused { OnErr result
            (LeadsTo FolderStays (places self.old) (places self.new)) }
        ensures failures { failures self.new
            ≡ failures self.old + (if is_ok result then 0 else 1) };

    /// Waits until the disk has all bytes of the open file, and closes it.
    ///
    /// # Errors
    ///
    /// `DeviceFault` if the device failed.
    fn keep(&mut self) -> Result<(), DeviceFault>
        ensures kept { OnOk result (Makes keeps (places self.old) (places self.new)) }
        ensures refused { OnErr result
            (LeadsTo FolderStays (places self.old) (places self.new)) }
        ensures failures { failures self.new
            ≡ failures self.old + (if is_ok result then 0 else 1) };

    /// Removes the open file.
    ///
    /// # Errors
    ///
    /// `DeviceFault` if that failed.
    fn leave(&mut self) -> Result<(), DeviceFault>
        ensures left { OnOk result (Makes leaves (places self.old) (places self.new)) }
        ensures refused { OnErr result
            (LeadsTo FolderStays (places self.old) (places self.new)) }
        ensures failures { failures self.new
            ≡ failures self.old + (if is_ok result then 0 else 1) };

    /// Waits until the disk has the names of the files in the folder beside OUT.
    ///
    /// # Errors
    ///
    /// `DeviceFault` if the disk failed.
    fn sync(&mut self) -> Result<(), DeviceFault>
        ensures synced { OnOk result (Makes files_synced (places self.old) (places self.new)) }
        ensures refused { OnErr result
            (LeadsTo FolderStays (places self.old) (places self.new)) }
        ensures failures { failures self.new
            ≡ failures self.old + (if is_ok result then 0 else 1) };

    /// Renames the folder beside OUT to OUT, in one step.
    ///
    /// # Errors
    ///
    /// `DeviceFault` if that failed. Both are as before.
    fn put_in_place(&mut self) -> Result<(), DeviceFault>
        ensures put { OnOk result (Makes named_out (places self.old) (places self.new)) }
        ensures refused { OnErr result
            (LeadsTo FolderStays (places self.old) (places self.new)) }
        ensures failures { failures self.new
            ≡ failures self.old + (if is_ok result then 0 else 1) };

    /// Waits until the disk has the name OUT as it is. It also succeeds if the file system has no
    /// such call for folders, or the folder may not be read.
    ///
    /// # Errors
    ///
    /// `DeviceFault` if the disk failed. Whether it has the name is then not known.
    fn sync_name(&mut self) -> Result<(), DeviceFault>
        ensures synced { OnOk result (Makes out_synced (places self.old) (places self.new)) }
        ensures refused { OnErr result
            (Makes (λ same. same) (places self.old) (places self.new)) }
        ensures failures { failures self.new
            ≡ failures self.old + (if is_ok result then 0 else 1) };

    /// Removes the folder beside OUT with all files in it.
    ///
    /// # Errors
    ///
    /// `DeviceFault` if that failed.
    fn remove(&mut self) -> Result<(), DeviceFault>
        ensures removed { OnOk result (Makes removed (places self.old) (places self.new)) }
        ensures refused { OnErr result
            (LeadsTo FolderStays (places self.old) (places self.new)) }
        ensures failures { failures self.new
            ≡ failures self.old + (if is_ok result then 0 else 1) };
}
