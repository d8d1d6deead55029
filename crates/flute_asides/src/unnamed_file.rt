//! A file without a name, and the calls that it is over.
ghost use Rattle.std.specs.Prelude.{◌≡◌, ◌+◌, None, Some, true, IfSome, IsSome, OnErr, OnOk};
ghost use Rattle.std.specs.Prelude.{length, option_map, is_some, if◌then◌else◌};
ghost use Rattle.flute_calls.specs.Disks.{Spoils};
ghost use Rattle.flute_output.specs.DiskWrites.{Extends};
ghost use Rattle.flute_asides.specs.Asides.{Appended, IsAtEnd, IsEmptied, IsUnnamed};
ghost use Rattle.flute_asides.specs.Asides.{OnlyFrees, Spoiled, left_in, moved};

use crate::aside_calls::AsideCalls;
use crate::making::unnamed;
use flute_calls::CallFault;
use std::alloc::Global;
use std::io::{self, ErrorKind, Read};

/// A file without a name, once it is made.
#[derive(Drop)]
pub struct UnnamedFile<C: AsideCalls + Drop> {
    pub(crate) calls: C,
    pub(crate) file: Option<C::File>,
}

impl<C: AsideCalls + Drop> UnnamedFile<C> {
    /// No file is made yet.
    pub fn none(calls: C) -> UnnamedFile<C>
        ensures { result ≡ record { calls = calls; file = None } }
    {
        UnnamedFile { calls, file: None }
    }

    /// Makes the file. Its path began so, until its name was taken away.
    ///
    /// # Errors
    ///
    /// As those of `unnamed`.
    pub fn make(&mut self, alloc: Global, prefix: &str) -> Result<(), CallFault>
        ensures made { C.told ≡ true → OnOk result (
            IfSome (option_map C.opened self.new.file) (λ o.
            IsUnnamed prefix.now o (C.run self.old.calls).now (C.run self.new.calls).now)) }
        ensures refused { C.told ≡ true → OnErr result (
            C.stuck self.new.calls ≡ C.stuck self.old.calls
            → OnlyFrees prefix.now (C.run self.old.calls).now (C.run self.new.calls).now) }
        ensures same_file { OnErr result (self.new.file ≡ self.old.file) }
        ensures open { OnOk result (IsSome self.new.file) }
    {
        self.file = Some(unnamed(&mut self.calls, alloc, prefix)?);
        Ok(())
    }

    /// Writes all the bytes, in as many calls as that needs.
    ///
    /// # Errors
    ///
    /// If a call failed, or the file is not made. What it has got behind what it had is then not
    /// known.
    pub fn append(&mut self, bytes: &[u8]) -> Result<(), CallFault>
        ensures appended { C.told ≡ true → OnOk result (Appended bytes.now
            (option_map C.opened self.old.file) (option_map C.opened self.new.file)
            (C.run self.old.calls).now (C.run self.new.calls).now) }
        ensures refused { C.told ≡ true → OnErr result (Spoiled
            (option_map C.opened self.old.file) (option_map C.opened self.new.file)
            (C.run self.old.calls).now (C.run self.new.calls).now) }
        ensures stuck { C.stuck self.new.calls ≡ C.stuck self.old.calls }
    {
        match &mut self.file {
            Some(file) => fill(&mut self.calls, file, bytes),
            None => Err(CallFault::Other),
        }
    }

    /// Lets the next read or write begin at the start.
    ///
    /// # Errors
    ///
    /// If the call failed.
    pub fn rewind(&mut self) -> Result<(), CallFault>
        ensures rewound { C.told ≡ true → OnOk result (option_map C.opened self.new.file
            ≡ option_map (moved 0) (option_map C.opened self.old.file)) }
        ensures same { C.told ≡ true → C.run self.new.calls ≡ C.run self.old.calls }
        ensures stuck { C.stuck self.new.calls ≡ C.stuck self.old.calls }
    {
        match &mut self.file {
            Some(file) => self.calls.rewind(file),
            None => Ok(()),
        }
    }

    /// Whether the file is made.
    pub fn is_made(&self) -> bool
        ensures { result ≡ is_some self.now.file }
    {
        self.file.is_some()
    }

    /// Takes all its bytes from the file, so that the next read or write begins at the start, and
    /// returns whether that was done. If it fails, the file is closed.
    pub fn empty(&mut self) -> bool
        ensures { C.told ≡ true
            → IsEmptied (option_map C.opened self.new.file) (C.run self.new.calls).now }
    {
        let is_empty = self.clear().is_ok();
        if !is_empty {
            self.close();
        }
        is_empty
    }

    /// Closes the file: no byte of it can be read any more.
    pub fn close(&mut self)
        ensures { C.told ≡ true
            → IsEmptied (option_map C.opened self.new.file) (C.run self.new.calls).now }
    {
        self.file = None;
    }

    fn clear(&mut self) -> Result<(), CallFault>
        ensures cleared { C.told ≡ true → OnOk result (
            IsEmptied (option_map C.opened self.new.file) (C.run self.new.calls).now) }
    {
        if let Some(file) = &mut self.file {
            self.calls.truncate(file)?;
            self.calls.rewind(file)?;
        }
        Ok(())
    }
}

impl<C: AsideCalls + Drop> Read for UnnamedFile<C> {
    ghost remaining = { λ u. if C.told
        then Some (left_in (option_map C.opened u.file) (C.run u.calls).now) else None };

    fn read(&mut self, buf: &mut [u8]) -> io::Result<usize> {
        match &mut self.file {
            Some(file) => match self.calls.read(file, buf) {
                Ok(count) => Ok(count),
                Err(_) => Err(ErrorKind::Other.into()),
            },
            None => Ok(0),
        }
    }
}

// Writes all the bytes to the file, in as many calls as that needs.
fn fill<C: AsideCalls>(calls: &mut C, file: &mut C::File, bytes: &[u8]) -> Result<(), CallFault>
    ensures filled { C.told ≡ true → IsAtEnd (C.opened file.old) (C.run calls.old).now
        → OnOk result (
        (C.opened file.new ≡ moved ((C.opened file.old).at + length bytes.now) (C.opened file.old))
        × Extends (C.opened file.old).number bytes.now
        (C.run calls.old).now (C.run calls.new).now) }
    ensures refused { C.told ≡ true → IsAtEnd (C.opened file.old) (C.run calls.old).now
        → OnErr result (Spoils (C.opened file.old).number
        (C.run calls.old).now (C.run calls.new).now) }
    ensures same_file { (C.opened file.new).number ≡ (C.opened file.old).number }
    ensures stuck { C.stuck calls.new ≡ C.stuck calls.old }
{
    let mut written = 0;
    while written < bytes.len() {
        written += calls.write(file, &bytes[written..])?;
    }
    Ok(())
}
