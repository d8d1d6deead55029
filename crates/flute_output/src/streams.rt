//! The three standard streams of a program.

use std::fs::{self, File};
use std::os::fd::{AsRawFd, IntoRawFd};
use std::rt::Files;

/// How many standard streams there are, from descriptor 0.
const STREAMS: i32 = 3;

/// What can be opened, and neither read nor written.
const NEITHER_READ_NOR_WRITTEN: &str = "/";

/// Makes sure that no file which is opened later becomes standard input, output or error, if the
/// program was started with one of them closed: it is opened as something that can be neither read
/// nor written. Call it first.
pub fn take_standard_streams<R: Files<File = File>>(rt: &R) {
    for _ in 0..STREAMS {
        match fs::open(rt, NEITHER_READ_NOR_WRITTEN) {
            // The system gives the lowest number that is free.
            Ok(file) if file.as_raw_fd() < STREAMS => {
                let _open_for_good = file.into_raw_fd();
            }
            _ => return,
        }
    }
}
