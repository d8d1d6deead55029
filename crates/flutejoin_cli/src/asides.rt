//! Where the program puts bytes aside: beside OUT, or in the folder for temporary files.
ghost use Rattle.std.specs.Prelude.{◌≡◌, IfErr};
ghost use Rattle.flutejoin.specs.declared.command_fault.CommandFault.TheVariants.{OutOfMemory};

use crate::aside::FileAside;
use crate::input::{Input, Reader, input_of};
use flute_asides::{AsideFile, SystemAsides};
use flute_output::FileLimit;
use flute_parts::Failures;
use flutejoin::{Asides, CommandFault};
use std::alloc::AllocError;
use std::{env, io};

/// How the name of a file begins that is put aside in the folder for temporary files.
const NAME: &str = "flutejoin.";

/// What a command puts aside, in files without names: beside its output, or in the folder for
/// temporary files. Contracts see none of their bytes.
#[derive(Drop)]
pub struct FileAsides<'a> {
    rt: &'a HostRuntime,
    /// What the paths of files begin with: else it is the folder for temporary files.
    beside: Option<String>,
    /// How often something was to be put aside, for contracts alone.
    made: Failures,
}

impl<'a> FileAsides<'a> {
    /// Nothing is put aside yet.
    pub fn new(rt: &'a HostRuntime, beside: Option<String>) -> FileAsides<'a> {
        FileAsides {
            rt,
            beside,
            made: Failures::none(),
        }
    }
}

impl<'a> Asides for FileAsides<'a> {
    ghost use Rattle.std.specs.Prelude.{false};

    type Aside = FileAside<'a>;

    type Input = Input<'a>;

    ghost tells = { λ _. false };

    ghost made = { λ a. a.made.count };

    fn aside(&mut self) -> Result<FileAside<'a>, CommandFault> {
        self.made = self.made.and_one();
        match &self.beside {
            Some(beside) => aside_at(self.rt, beside),
            None => match temporary(self.rt) {
                Ok(prefix) => aside_at(self.rt, &prefix),
                Err(_) => Err(CommandFault::OutOfMemory),
            },
        }
    }

    fn again(&mut self, aside: FileAside<'a>) -> Result<Input<'a>, CommandFault> {
        let Ok(reader) = aside.bytes.into_reader() else {
            return Err(CommandFault::CannotWrite);
        };
        match input_of(self.rt, Reader::Aside(reader), 1) {
            Some(input) => Ok(input),
            None => Err(CommandFault::OutOfMemory),
        }
    }
}

// Where bytes are put aside, in a file whose path begins so.
fn aside_at<'a>(rt: &'a HostRuntime, prefix: &str) -> Result<FileAside<'a>, CommandFault>
    ensures { IfErr result (λ fault. fault ≡ OutOfMemory) }
{
    let limit = FileLimit::of_process(rt);
    match AsideFile::new(SystemAsides::new(rt), rt.alloc(), limit, prefix) {
        Ok(bytes) => Ok(FileAside { bytes }),
        Err(_) => Err(CommandFault::OutOfMemory),
    }
}

// What paths of the folder for temporary files begin with.
fn temporary(rt: &HostRuntime) -> io::Result<String> {
    let path = env::temp_dir(rt)?.join(rt.alloc(), NAME)?;
    Ok(String::from_str(rt.alloc(), path.as_os_str())?)
}

/// What paths of files beside an output begin with.
pub fn beside(rt: &HostRuntime, out: &str) -> Result<String, AllocError> {
    let mut prefix = String::from_str(rt.alloc(), out)?;
    prefix.push_str(".aside.")?;
    Ok(prefix)
}
