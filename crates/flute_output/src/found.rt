//! The file that an output is to overwrite.

use flute_calls::FileId;
use std::fs::{self, File, Metadata};
use std::io::Read;
use std::rt::Files;

/// Standard output, whatever the program was started with.
const STANDARD_OUTPUT: &str = "/proc/self/fd/1";

/// A regular file at the path of an output.
#[derive(Drop)]
pub struct Found {
    /// Which file it is.
    pub id: FileId,
    /// Its first four bytes. In the place of those that it lacks, or that cannot be read, are
    /// zeros.
    pub first: [u8; 4],
}

impl Found {
    /// The file at this path. `None` if there is no regular file, or it is standard output, or it
    /// cannot be looked at.
    pub fn at<R: Files<File = File>>(rt: &R, path: &str) -> Option<Found> {
        let found = fs::metadata(rt, path).ok()?;
        if !found.is_file() || is_standard_output(rt, &found) {
            return None;
        }
        let mut first = [0; 4];
        if let Ok(mut file) = fs::open(rt, path) {
            let _ = file.read_exact(&mut first);
        }
        Some(Found {
            id: FileId::of(&found),
            first,
        })
    }
}

/// Whether this is what standard output goes to.
pub fn is_standard_output<R: Files>(rt: &R, found: &Metadata) -> bool {
    match fs::metadata(rt, STANDARD_OUTPUT) {
        Ok(output) => FileId::of(&output) == FileId::of(found),
        Err(_) => false,
    }
}
