//! The files that a command reads and writes, in the file system.
ghost use Rattle.std.specs.Prelude.{None};
ghost use Rattle.flutejoin_commands.specs.Worlds.{IsNotMade};

use crate::asides::{FileAsides, beside};
use crate::input::{Input, Reader, input_of};
use flute_calls::{FileId, SystemCalls};
use flute_output::{DeviceFile, DiskFolder, DiskNewFolder, FileLimit, Found, Place, place_at};
use flute_parts::Failures;
use flutejoin::{CommandFault, Overwrites};
use flutejoin_commands::{Inputs, World};
use std::fs::{self, Metadata};
use std::io::{self, ErrorKind};
use std::mem;

/// From how many bytes on the length of a file is believed: the system's own files report a wrong
/// one, and fewer bytes are soon read.
const LEAST_SIZE: u64 = 65_536;

/// The path that means standard input, and standard output.
const STANDARD: &str = "-";

/// What is standard input, whatever the program was started with.
const STANDARD_INPUT: &str = "/proc/self/fd/0";

/// What is standard output.
const STANDARD_OUTPUT: &str = "/proc/self/fd/1";

/// The files of the system, and standard input. A folder is no input.
#[derive(Drop)]
pub struct System<'a> {
    rt: &'a HostRuntime,
    /// Which file OUT was before the inputs were opened, if it was there.
    before: Option<FileId>,
    /// Which files the inputs are that were opened, as far as the system reports it.
    files: Vec<FileId>,
    /// How many bytes the last of them has, if it is a regular file that is not small.
    size: Option<u64>,
    /// What paths of files beside OUT begin with, if it is a file or nothing.
    beside: Option<String>,
    /// How often an input was to be opened, for contracts alone.
    asked: Failures,
}

impl<'a> System<'a> {
    /// No file is open yet.
    pub fn new(rt: &'a HostRuntime) -> System<'a> {
        System {
            rt,
            before: None,
            files: Vec::new(rt.alloc()),
            size: None,
            beside: None,
            asked: Failures::none(),
        }
    }
}

impl<'a> Inputs for System<'a> {
    type Input = Input<'a>;

    ghost files = { λ _. None };

    ghost folders = { λ _ _. None };

    ghost asked = { λ s. s.asked.count };

    ghost closed = { λ _. None };

    fn open(&mut self, number: usize, path: &str, among: usize) -> Result<Input<'a>, CommandFault> {
        self.asked = self.asked.and_one();
        let Ok((reader, found)) = reader_at(self.rt, path) else {
            return Err(CommandFault::CannotOpen(number));
        };
        let Some(input) = input_of(self.rt, reader, among) else {
            return Err(CommandFault::OutOfMemory);
        };
        self.size = None;
        if let Some(found) = found {
            if path != STANDARD && found.is_file() && found.len() >= LEAST_SIZE {
                self.size = Some(found.len());
            }
            if self.files.push(FileId::of(&found)).is_err() {
                return Err(CommandFault::OutOfMemory);
            }
        }
        Ok(input)
    }
}

impl<'a> World for System<'a> {
    type Folder = DiskFolder<SystemCalls<'a, HostRuntime>>;

    type Device = DeviceFile<'a, HostRuntime>;

    type NewFolder = DiskNewFolder<SystemCalls<'a, HostRuntime>>;

    type Asides = FileAsides<'a>;

    fn look(&mut self, out: &str) {
        let is_file = match fs::metadata(self.rt, out) {
            Ok(found) => {
                self.before = Some(FileId::of(&found));
                found.is_file()
            }
            Err(_) => {
                self.before = None;
                out != STANDARD
            }
        };
        self.beside = if is_file {
            beside(self.rt, out).ok()
        } else {
            None
        };
    }

    /// Of standard input some may have been read.
    fn size(&self, _input: &Input<'a>) -> Option<u64> {
        self.size
    }

    /// Nothing but a regular file is looked at.
    fn guard(&mut self, out: &str, overwrites: Overwrites) -> Result<(), CommandFault> {
        if let Some(output) = standard_output_at(self.rt, out) {
            if overwrites.spares_inputs() && self.files.contains(&output) {
                return Err(CommandFault::OutputIsInput);
            }
            return Ok(());
        }
        match Found::at(self.rt, out) {
            Some(found) if out != STANDARD => {
                overwrites.check(&found.first, self.files.contains(&found.id))?;
                Ok(())
            }
            _ => Ok(()),
        }
    }

    /// The output may be one of the inputs. All memory that it needs is asked for. No other output
    /// is placed afterwards.
    fn place(&mut self, out: &str) -> Result<Place<Self::Folder, Self::Device>, CommandFault> {
        let inputs = mem::replace(&mut self.files, Vec::new(self.rt.alloc()));
        place_at(self.rt, self.rt.alloc(), out, self.before, inputs).map_err(not_made)
    }

    /// Standard output is no folder.
    fn new_folder(&mut self, out: &str) -> Result<Self::NewFolder, CommandFault> {
        if out == STANDARD {
            return Err(CommandFault::CannotCreate);
        }
        let limit = FileLimit::of_process(self.rt);
        DiskNewFolder::new(SystemCalls::new(self.rt), self.rt.alloc(), limit, out).map_err(not_made)
    }

    fn asides(&mut self) -> FileAsides<'a> {
        FileAsides::new(self.rt, self.beside.take())
    }

    fn close(&mut self, _out: &str, _folder: Self::Folder) {}

    fn close_folder(&mut self, _out: &str, _folder: Self::NewFolder) {}
}

// The regular file that standard output goes to, if this path means standard output.
fn standard_output_at(rt: &HostRuntime, path: &str) -> Option<FileId> {
    let output = fs::metadata(rt, STANDARD_OUTPUT).ok()?;
    if !output.is_file() {
        return None;
    }
    let id = FileId::of(&output);
    if path == STANDARD {
        return Some(id);
    }
    match fs::metadata(rt, path) {
        Ok(found) if FileId::of(&found) == id => Some(id),
        _ => None,
    }
}

fn not_made(error: io::Error) -> CommandFault
    ensures { IsNotMade result }
{
    match error.kind() {
        ErrorKind::OutOfMemory => CommandFault::OutOfMemory,
        _ => CommandFault::CannotCreate,
    }
}

fn reader_at<'a>(rt: &'a HostRuntime, path: &str) -> io::Result<(Reader<'a>, Option<Metadata>)> {
    let (reader, found) = if path == STANDARD {
        let found = fs::metadata(rt, STANDARD_INPUT).ok();
        (Reader::StandardInput(rt.stdin()), found)
    } else {
        let file = fs::open(rt, path)?;
        let found = file.metadata()?;
        (Reader::File(file), Some(found))
    };
    match found {
        Some(found) if found.is_dir() => Err(ErrorKind::IsADirectory.into()),
        found => Ok((reader, found)),
    }
}
