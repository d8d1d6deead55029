//! The calls of the system for files that are put aside.
ghost use Rattle.std.specs.Prelude.{◌≡◌, false, IfOk, Ok};
ghost use Rattle.flute_calls.specs.Moments.{no_run};

use crate::aside_calls::AsideCalls;
use flute_calls::CallFault;
use flute_parts::Failures;
use std::fs::{self, File, OpenOptions};
use std::io::{self, ErrorKind, Read, Seek, SeekFrom, Write};
use std::os::unix::fs::OpenOptionsExt;
use std::rt::Files;

/// How often a call is tried that a signal interrupts, which then did nothing.
const TRIES: u32 = 64;

/// The calls of the system. Contracts see nothing of its disk: that it does what the trait says is
/// trusted.
#[derive(Drop)]
pub struct SystemAsides<'a, R: Files<File = File>> {
    rt: &'a R,
    /// How often a name could not be removed, for contracts alone.
    stuck: Failures,
}

impl<'a, R: Files<File = File>> SystemAsides<'a, R> {
    /// The calls.
    pub fn new(rt: &'a R) -> SystemAsides<'a, R> {
        SystemAsides {
            rt,
            stuck: Failures::none(),
        }
    }
}

impl<R: Files<File = File>> AsideCalls for SystemAsides<'_, R> {
    type File = File;

    ghost told = { false };

    ghost run = { λ _. no_run };

    ghost opened = { λ _. record { number = 0; at = 0; mode = 0 } };

    ghost stuck = { λ s. s.stuck.count };

    fn create_new(&mut self, name: &str, mode: u32) -> Result<File, CallFault> {
        let made = OpenOptions::new()
            .read(true)
            .write(true)
            .create_new(true)
            .mode(mode)
            .open(self.rt, name);
        Ok(made?)
    }

    fn is_empty(&mut self, name: &str) -> Result<bool, CallFault> {
        let found = fs::symlink_metadata(self.rt, name)?;
        Ok(found.is_file() && found.len() == 0)
    }

    fn unlink(&mut self, name: &str) -> Result<(), CallFault> {
        match fs::remove_file(self.rt, name) {
            Err(error) if error.kind() != ErrorKind::NotFound => {
                self.stuck = self.stuck.and_one();
                Err(error.into())
            }
            _ => Ok(()),
        }
    }

    fn write(&mut self, file: &mut File, bytes: &[u8]) -> Result<usize, CallFault> {
        for _ in 0..TRIES {
            match file.write(bytes) {
                Err(error) if error.kind() == ErrorKind::Interrupted => {}
                Ok(0) if !bytes.is_empty() => return Err(CallFault::Other),
                written => return told(written),
            }
        }
        Err(CallFault::Other)
    }

    fn rewind(&mut self, file: &mut File) -> Result<(), CallFault> {
        file.seek(SeekFrom::Start(0))?;
        Ok(())
    }

    fn read(&mut self, file: &mut File, buffer: &mut [u8]) -> Result<usize, CallFault> {
        for _ in 0..TRIES {
            match file.read(buffer) {
                Err(error) if error.kind() == ErrorKind::Interrupted => {}
                given => return told(given),
            }
        }
        Err(CallFault::Other)
    }

    fn truncate(&mut self, file: &File) -> Result<(), CallFault> {
        file.set_len(0)?;
        Ok(())
    }
}

// What a call returned.
fn told<T: Drop>(done: io::Result<T>) -> Result<T, CallFault>
    ensures { IfOk result (λ value. done ≡ Ok value) }
{
    match done {
        Ok(value) => Ok(value),
        Err(error) => Err(error.into()),
    }
}
