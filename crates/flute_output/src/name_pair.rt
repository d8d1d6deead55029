//! The name OUT and the name beside it, in a folder of the system.

ghost use Rattle.std.specs.Prelude.{◌≡◌, ◌≢◌, ◌++◌, IfOk, codes, string_bytes};
ghost use Rattle.std.specs.Path.{path_buf_bytes};

use std::alloc::Global;
use std::fs::{self, Metadata};
use std::io::{self, ErrorKind};
use std::path::PathBuf;
use std::rt::Files;

/// What is appended to OUT's name for what is beside it.
const SUFFIX: &str = ".partial";

/// How often a run tries to make what is beside OUT while other runs take its name.
pub const ATTEMPTS: u32 = 16;

/// The permissions of a new file, before the user's mask.
pub const NEW_MODE: u32 = 0o666;

/// The two names. What is beside OUT gets that name once it is whole.
#[derive(Drop)]
pub struct NamePair {
    pub out: PathBuf,
    pub beside: String,
    ghost apart: { string_bytes beside ≢ path_buf_bytes out },
}

impl NamePair {
    /// The name of OUT, and the one beside it.
    ///
    /// # Errors
    ///
    /// `OutOfMemory`.
    pub fn new(alloc: Global, out: PathBuf) -> io::Result<NamePair>
        ensures out { IfOk result (λ names. names.out ≡ out) }
        ensures beside { IfOk result (λ names.
            string_bytes names.beside ≡ path_buf_bytes out ++ codes ".partial") }
    {
        let mut beside = String::from_str(alloc, out.as_str())?;
        beside.push_str(SUFFIX)?;
        Ok(NamePair { out, beside })
    }
}

/// What has this name, a link too. `None` if nothing has it.
///
/// # Errors
///
/// Those of the system.
pub fn found_at<R: Files>(rt: &R, path: &str) -> io::Result<Option<Metadata>> {
    match fs::symlink_metadata(rt, path) {
        Ok(found) => Ok(Some(found)),
        Err(error) if error.kind() == ErrorKind::NotFound => Ok(None),
        Err(error) => Err(error),
    }
}
