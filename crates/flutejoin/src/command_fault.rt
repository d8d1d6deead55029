//! The faults of commands, with the line and the exit status of each.
ghost use Rattle.std.specs.Prelude.{◌≡◌, Ok, Err, MatchResult};
ghost use Rattle.flutejoin.specs.Status.{of_load};

use flute_journal::{LoadFault, ReadFault};
use flute_parts::{DeviceFault, InfoFault};
use flute_wire::{Refusal, WriteFault};
use std::alloc::AllocError;
use thiserror::Error;

/// Why a command failed. Shown, it is the line that the program writes to standard error.
#[derive(Debug, Drop, Error)]
pub enum CommandFault {
    /// The parser refused the command line, with its own text; or it was asked for help or the
    /// version, which is that text.
    #[error(transparent)]
    CommandLine(clap::Error),
    /// A word of the command line is not UTF-8.
    #[error("an argument is not text")]
    NotText,
    /// The value of the option with this name is not 1 to 39 decimal digits, or
    /// not within its range.
    #[error("bad number: --{0}")]
    BadNumber(&'static str),
    /// The option with this name is given more often than once, or does not go with the others.
    #[error("bad option: --{0}")]
    BadOption(&'static str),
    /// The option with this name is left out.
    #[error("missing option: --{0}")]
    MissingOption(&'static str),
    /// No option says what `forget` is to forget.
    #[error("missing option: what to forget")]
    MissingChoice,
    /// The value of `--source` is neither 32 or 8 hexadecimal digits nor an address.
    #[error("bad source")]
    BadSource,
    /// The TOI is 0 and no FDT Instance is named, or it is another and one is.
    #[error("bad key")]
    BadKey,
    /// `join` was given more than 64 inputs.
    #[error("too many inputs")]
    TooManyInputs,
    /// Two inputs are standard input.
    #[error("standard input twice")]
    StandardInputTwice,
    /// The output is an input.
    #[error("output is an input")]
    OutputIsInput,
    /// The output is there, and begins as a datagram file.
    #[error("output is a datagram file")]
    OutputIsDatagrams,
    /// The output is there, and begins as a journal, which the command does not write.
    #[error("output is a journal")]
    OutputIsJournal,
    /// Numbers are no transmission information.
    #[error("bad information: {0}")]
    BadInformation(InfoFault),
    /// The text is not an even number of hexadecimal digits.
    #[error("bad hex")]
    BadHex,
    /// The datagram is refused.
    #[error("refused: {0}")]
    Refused(Refusal),
    /// The datagrams of an object cannot be written.
    #[error("cannot send: {0}")]
    CannotSend(WriteFault),
    /// The input with this number, from 1, has more than 4,294,967,295 bytes.
    #[error("input {0}: TooLarge")]
    TooLarge(usize),
    /// The input with this number, from 1, could not be opened.
    #[error("cannot open input {0}")]
    CannotOpen(usize),
    /// The input with this number, from 1, is no journal or datagram file, or could not be read.
    #[error("input {0}: {1}")]
    Input(usize, ReadFault),
    /// The input with this number, from 1, begins as neither a journal nor a datagram file.
    #[error("input {0}: unknown kind")]
    UnknownKind(usize),
    /// The line with this number, from 1, of a list of information is none of those that `show`
    /// prints for information.
    #[error("list: line {0}")]
    ListLine(u64),
    /// The numbers of the line with this number, from 1, of a list of information are no
    /// transmission information.
    #[error("list: line {0}: {1}")]
    ListInformation(u64, InfoFault),
    /// The line with this number, from 1, of what `fill` is asked for is none that `gaps` prints
    /// there.
    #[error("bad line {0}")]
    BadLine(u64),
    /// A journal, or all inputs together, have more sessions, objects or symbols than a store
    /// holds, or a command would leave a file of more entries or datagrams than the commands read.
    #[error("full")]
    Full,
    /// Nothing of the object is held.
    #[error("no object")]
    NoObject,
    /// Symbols of the object are held, and no information.
    #[error("no information")]
    NoInformation,
    /// Two values of the object's information are known.
    #[error("conflicting information")]
    ConflictingInformation,
    /// Some symbol of the object is not held as one fitting value: this one is the first, by its
    /// source block number and its encoding symbol ID.
    #[error("not whole: {sbn}/{esi}")]
    NotWhole { sbn: u16, esi: u16 },
    /// There was no memory.
    #[error("out of memory")]
    OutOfMemory,
    /// The output could not be created.
    #[error("cannot create output")]
    CannotCreate,
    /// The output could not be written.
    #[error("cannot write")]
    CannotWrite,
    /// What is not held in memory could not be put aside, or not be read again.
    #[error("cannot write what is put aside")]
    CannotPutAside,
    /// The output was written, and the disk did not confirm that it has its name: a lost power may
    /// leave what was there before.
    #[error("output may not be on the disk")]
    NotOnDisk,
    /// `gaps --check` printed all, and not all objects that it listed are whole.
    #[error("not all objects are whole")]
    NotAllWhole,
    /// `compare --check` printed all, and the journals have different values of something.
    #[error("values differ")]
    ValuesDiffer,
}

impl CommandFault {
    ghost use Rattle.flutejoin.specs.Status.{exit_status};

    /// The status that the program ends with: 1 for what is wrong in the input, 2 for the command
    /// line, 3 for memory and devices.
    pub fn status(&self) -> u8
        ensures { result ≡ exit_status self.now }
    {
        match self {
            CommandFault::BadHex | CommandFault::Refused(_) | CommandFault::Full => 1,
            CommandFault::BadInformation(_) | CommandFault::CannotSend(_) => 1,
            CommandFault::TooLarge(_) => 1,
            CommandFault::ListLine(_) | CommandFault::ListInformation(..) => 1,
            CommandFault::BadLine(_) => 1,
            CommandFault::NoObject | CommandFault::NoInformation | CommandFault::NotAllWhole => 1,
            CommandFault::ValuesDiffer => 1,
            CommandFault::ConflictingInformation | CommandFault::NotWhole { .. } => 1,
            CommandFault::CommandLine(_) | CommandFault::NotText => 2,
            CommandFault::BadNumber(_)
            | CommandFault::BadOption(_)
            | CommandFault::MissingOption(_)
            | CommandFault::MissingChoice
            | CommandFault::BadSource
            | CommandFault::BadKey => 2,
            CommandFault::TooManyInputs | CommandFault::StandardInputTwice => 2,
            CommandFault::OutputIsInput => 2,
            CommandFault::OutputIsDatagrams | CommandFault::OutputIsJournal => 2,
            CommandFault::Input(_, ReadFault::Read | ReadFault::OutOfMemory) => 3,
            CommandFault::Input(..) | CommandFault::UnknownKind(_) => 1,
            CommandFault::CannotOpen(_) | CommandFault::CannotCreate => 3,
            CommandFault::OutOfMemory => 3,
            CommandFault::CannotWrite | CommandFault::CannotPutAside => 3,
            CommandFault::NotOnDisk => 3,
        }
    }
}

impl From<AllocError> for CommandFault {
    ghost use Rattle.std.specs.Prelude.{◌≡◌};
    ghost use Rattle.flutejoin.specs.declared.command_fault.CommandFault.TheVariants.{OutOfMemory};

    ghost from_gives = { λ why fault. fault ≡ OutOfMemory };

    fn from(_why: AllocError) -> CommandFault {
        CommandFault::OutOfMemory
    }
}

impl From<DeviceFault> for CommandFault {
    ghost use Rattle.std.specs.Prelude.{◌≡◌};
    ghost use Rattle.flutejoin.specs.declared.command_fault.CommandFault.TheVariants.{CannotWrite};

    ghost from_gives = { λ why fault. fault ≡ CannotWrite };

    fn from(_why: DeviceFault) -> CommandFault {
        CommandFault::CannotWrite
    }
}

/// Why the journal that is the input with this number, from 1, was not read into a store.
pub fn load_fault(number: usize, fault: LoadFault) -> CommandFault
    ensures { result ≡ of_load number fault }
{
    match fault {
        LoadFault::Read(fault) => CommandFault::Input(number, fault),
        LoadFault::Full => CommandFault::Full,
        LoadFault::OutOfMemory => CommandFault::OutOfMemory,
    }
}

/// What was read of the input with this number, from 1; or `Input` with that number and the fault.
pub fn at_input<T: Drop>(number: usize, read: Result<T, ReadFault>) -> Result<T, CommandFault>
    ensures { MatchResult read (λ x. result ≡ Ok x)
        (λ f. result ≡ Err (CommandFault.Input number f)) }
{
    match read {
        Ok(value) => Ok(value),
        Err(fault) => Err(CommandFault::Input(number, fault)),
    }
}
