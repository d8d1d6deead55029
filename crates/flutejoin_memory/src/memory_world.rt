//! `MemoryWorld`: a world whose files are in memory.
ghost use Rattle.std.specs.Prelude.{◌≡◌, map, Some, IfOk, IfErr, OnOk, option_map};
ghost use Rattle.flutejoin_memory.specs.MemoryFiles.{files_of};
ghost use Rattle.flutejoin_memory.specs.MemoryWorlds.{memory_files};
ghost use Rattle.flutejoin_memory.specs.NamedFiles.{with_bytes};
ghost use Rattle.flutejoin_commands.specs.Worlds.{IsNotOverwritten, MayOverwrite};
ghost use Rattle.flutejoin.specs.OutputGuard.{IsKeptOutput, IsOverwritten};

use crate::changes::Changes;
use crate::memory_asides::MemoryAsides;
use crate::memory_report::MemoryReport;
use crate::named_bytes::{NamedBytes, named};
use crate::owned_source::OwnedSource;
use flute_memory::{MemoryFolder, MemoryNewFolder};
use flute_output::Place;
use flute_parts::{Failures, Source};
use flutejoin::{CommandFault, Overwrites};
use flutejoin_commands::{Inputs, World};
use std::alloc::{AllocError, Global};

/// The name that means standard output.
const STANDARD: &str = "-";

/// Files in memory, by their names, for tests: those that were given, and what became of the
/// outputs that were closed. Each output fails for good after a given number of calls; none is a
/// device.
///
/// If there was no memory for what became of an output, nothing is known of any name: what asks for
/// one is refused, as there is no memory.
#[derive(Drop)]
pub struct MemoryWorld<'a> {
    alloc: Global,
    given: &'a [NamedBytes<'a>],
    changes: Changes,
    opened: Vec<String>,
    good: usize,
    asked: Failures,
}

impl<'a> MemoryWorld<'a> {
    /// A world of these files; of one name the first counts. Each of its folders works in `good`
    /// calls, and fails from then on. It takes no memory.
    pub fn new(alloc: Global, given: &'a [NamedBytes<'a>], good: usize) -> MemoryWorld<'a>
        ensures { memory_files result ≡ files_of (map with_bytes given.now) }
    {
        MemoryWorld {
            alloc,
            given,
            changes: Changes::none(alloc),
            opened: Vec::new(alloc),
            good,
            asked: Failures::none(),
        }
    }

    /// The bytes that the name has, if it has some.
    ///
    /// # Errors
    ///
    /// `AllocError` if there was no memory for what became of an output.
    pub fn bytes_of(&self, name: &str) -> Result<Option<&[u8]>, AllocError>
        ensures { IfOk result
            (λ bytes. option_map (λ b. b.now) bytes ≡ memory_files self.now name.now) }
    {
        match self.changes.of_name(name)? {
            Some(change) => Ok(change.bytes()),
            None => Ok(named(self.given, name).map(|file| file.bytes)),
        }
    }

    // Whether the file of the name may be overwritten.
    fn check(&self, name: &str, overwrites: Overwrites) -> Result<(), CommandFault>
        ensures spared { OnOk result
            (MayOverwrite (Some (memory_files self.now)) overwrites name.now) }
        ensures kept { IfErr result IsNotOverwritten }
    {
        let Ok(found) = self.bytes_of(name) else {
            return Err(CommandFault::OutOfMemory);
        };
        match found {
            Some(bytes) => {
                overwrites.check(bytes, self.has_opened(name))?;
                Ok(())
            }
            None => Ok(()),
        }
    }

    // Whether it is an input of the command.
    fn has_opened(&self, name: &str) -> bool {
        self.opened.iter().any(|opened| opened.as_str() == name)
    }

    // One input more.
    fn note_opened(&mut self, name: &str) -> Result<(), AllocError>
        ensures files { memory_files self.new ≡ memory_files self.old }
        ensures asked { self.new.asked ≡ self.old.asked }
        ensures changed { self.new.changes.told.changed ≡ self.old.changes.told.changed }
    {
        let name = String::from_str(self.alloc, name)?;
        match self.opened.push(name) {
            Ok(()) => Ok(()),
            Err(_) => Err(AllocError),
        }
    }

    // The bytes of the name, in memory of their own.
    fn copied(&self, name: &str) -> Result<Option<Vec<u8>>, AllocError>
        ensures { IfOk result
            (λ bytes. option_map (λ b. b.items) bytes ≡ memory_files self.now name.now) }
    {
        match self.bytes_of(name)? {
            Some(bytes) => Ok(Some(bytes.to_vec(self.alloc)?)),
            None => Ok(None),
        }
    }
}

impl<'a> Inputs for MemoryWorld<'a> {
    ghost use Rattle.flutejoin_memory.specs.MemoryWorlds.{memory_files, memory_folders};

    type Input = OwnedSource;

    ghost files = { λ w. Some (memory_files w) };

    ghost folders = { memory_folders };

    ghost asked = { λ w. w.asked.count };

    ghost closed = { λ w. Some w.changes.told.changed.closed };

    fn open(
        &mut self,
        number: usize,
        path: &str,
        _among: usize,
    ) -> Result<OwnedSource, CommandFault> {
        self.asked = self.asked.and_one();
        match self.copied(path) {
            Ok(Some(bytes)) => match self.note_opened(path) {
                Ok(()) => Ok(OwnedSource::new(bytes)),
                Err(_) => Err(CommandFault::OutOfMemory),
            },
            Ok(None) => Err(CommandFault::CannotOpen(number)),
            Err(_) => Err(CommandFault::OutOfMemory),
        }
    }
}

impl<'a> World for MemoryWorld<'a> {
    type Folder = MemoryFolder;

    type Device = MemoryReport;

    type NewFolder = MemoryNewFolder;

    type Asides = MemoryAsides;

    fn look(&mut self, _out: &str) {
        self.opened.clear();
    }

    fn size(&self, input: &OwnedSource) -> Option<u64> {
        Some(input.buffer().len() as u64)
    }

    fn guard(&mut self, out: &str, overwrites: Overwrites) -> Result<(), CommandFault> {
        self.check(out, overwrites)
    }

    fn place(&mut self, out: &str) -> Result<Place<MemoryFolder, MemoryReport>, CommandFault> {
        if out == STANDARD {
            return Ok(Place::StandardOutput);
        }
        match self.copied(out) {
            Ok(bytes) => Ok(Place::File(MemoryFolder::new(self.alloc, bytes, self.good))),
            Err(_) => Err(CommandFault::OutOfMemory),
        }
    }

    /// There is no folder of any name yet. Once one was closed, `CannotCreate`.
    fn new_folder(&mut self, out: &str) -> Result<MemoryNewFolder, CommandFault> {
        if out == STANDARD || self.changes.has_folder() {
            return Err(CommandFault::CannotCreate);
        }
        Ok(MemoryNewFolder::new(self.alloc, None, self.good))
    }

    fn asides(&mut self) -> MemoryAsides {
        MemoryAsides::new(self.alloc)
    }

    fn close(&mut self, out: &str, folder: MemoryFolder) {
        self.changes.close(self.alloc, out, &folder);
    }

    fn close_folder(&mut self, out: &str, folder: MemoryNewFolder) {
        self.changes.close_folder(out, &folder);
    }
}
