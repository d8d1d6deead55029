//! Which file this is, whatever its names are.
ghost use Rattle.std.specs.Prelude.{◌≡◌};

use std::fs::Metadata;
use std::os::unix::fs::MetadataExt;

/// A file of the system: two names that lead to one file have one number of a device
/// and of a file on it.
#[derive(Clone, Copy, PartialEq, Eq)]
pub struct FileId {
    device: u64,
    number: u64,
}

impl FileId {
    /// The file with this number of a device and this number on it.
    pub fn new(device: u64, number: u64) -> FileId
        ensures device { result.device ≡ device }
        ensures number { result.number ≡ number }
    {
        FileId { device, number }
    }

    /// The file of this metadata.
    pub fn of(metadata: &Metadata) -> FileId {
        FileId::new(metadata.dev(), metadata.ino())
    }
}
