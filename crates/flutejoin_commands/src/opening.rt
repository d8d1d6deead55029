//! The inputs of a command, opened by their names.
ghost use Rattle.std.specs.Prelude.{◌≡◌, ◌≤◌, ◌⊎◌, ◌+◌, ℕ, List, Option, Err, length, map};
ghost use Rattle.std.specs.Prelude.{OnOk, IfOk, IfErr};
ghost use Rattle.flutejoin.specs.declared.command_fault.CommandFault.TheVariants.{OutOfMemory};
ghost use Rattle.flutejoin.specs.declared.command_fault.CommandFault.TheVariants.{CannotOpen};
ghost use Rattle.flutejoin_commands.specs.Closings.{Closing};
ghost use Rattle.flutejoin_commands.specs.Files.{Files, HasBytes, IsNoFile};
ghost use Rattle.flutejoin_commands.specs.Folders.{FolderNames};
ghost use Rattle.flutejoin_commands.specs.Opened.{AreOpened, IsOpened, IsNotOpened, FirstNotOpened};

use flute_journal::ReadFault;
use flute_parts::Source;
use flutejoin::{CommandFault, JoinInput};
use std::alloc::Global;

/// What opens inputs by their names.
pub trait Inputs {
    type Input: Source + Drop;

    // The files that the names lead to, if they are known.
    ghost files: { Self → Option Files };

    // What the name of a new folder leads to, if that is known.
    ghost folders: { Self → FolderNames };

    // How often an input was to be opened so far.
    ghost asked: { Self → ℕ };

    // The outputs that were closed so far, the last first, if they are known.
    ghost closed: { Self → Option (List Closing) };

    /// Opens the input with this name, whose number is this, from 1: it gives the bytes that the
    /// name has. It is one of so many that are read together, and share the memory for reading.
    ///
    /// # Errors
    ///
    /// `CannotOpen` with the number if it is not there, or is no input; and `OutOfMemory`.
    fn open(&mut self, number: usize, path: &str, among: usize) -> Result<Self::Input, CommandFault>
        ensures opened { IfOk result
            (λ input. HasBytes (files self.old) path.now (Self.Input.unread input)) }
        ensures failed { IfErr result (λ fault.
            ((fault ≡ CannotOpen number) × IsNoFile (files self.old) path.now)
            ⊎ (fault ≡ OutOfMemory)) }
        ensures same_files { files self.new ≡ files self.old }
        ensures same_folders { folders self.new ≡ folders self.old }
        ensures same_closed { closed self.new ≡ closed self.old }
        ensures asked { asked self.new ≡ asked self.old + 1 };
}

/// Opens two inputs, the first and then the second.
///
/// # Errors
///
/// As [`Inputs::open`], of the first that is not opened.
pub fn open_two<I: Inputs>(
    inputs: &mut I,
    first: &str,
    second: &str,
) -> Result<(I::Input, I::Input), CommandFault>
    ensures opened { IfOk result (λ both.
        HasBytes (I.files inputs.old) first.now (I.Input.unread both.0)
        × HasBytes (I.files inputs.old) second.now (I.Input.unread both.1)) }
    ensures failed { IfErr result (λ fault.
        ((fault ≡ CannotOpen 1) × IsNoFile (I.files inputs.old) first.now)
        ⊎ (((fault ≡ CannotOpen 2) × IsNoFile (I.files inputs.old) second.now
        × ((source : I.Input) × HasBytes (I.files inputs.old) first.now (I.Input.unread source)))
        ⊎ (fault ≡ OutOfMemory))) }
    ensures same_files { I.files inputs.new ≡ I.files inputs.old }
    ensures same_folders { I.folders inputs.new ≡ I.folders inputs.old }
    ensures same_closed { I.closed inputs.new ≡ I.closed inputs.old }
    ensures each_once { OnOk result (I.asked inputs.new ≡ I.asked inputs.old + 2) }
    ensures at_most { I.asked inputs.new ≤ I.asked inputs.old + 2 }
{
    let opened = inputs.open(1, first, 1)?;
    match inputs.open(2, second, 1) {
        Ok(other) => Ok((opened, other)),
        Err(fault) => Err(fault),
    }
}

/// Opens the inputs of a join, and reads the first bytes of each before the next is opened.
///
/// # Errors
///
/// The first that is met, with the number of its input, from 1: `CannotOpen`, or `Input` with
/// `Read` if the source failed. `OutOfMemory` if there was none.
pub fn open_inputs<I: Inputs>(
    inputs: &mut I,
    alloc: Global,
    paths: &[&str],
) -> Result<Vec<JoinInput<I::Input>>, CommandFault>
    ensures opened { IfOk result (λ opened. AreOpened (I.files inputs.old) I.Input.unread
        (map (λ path. path.now) paths.now) opened.items) }
    ensures failed { IfErr result (λ fault.
        FirstNotOpened (I.files inputs.old) I.Input.unread (map (λ path. path.now) paths.now)
        (I.asked inputs.old) (I.asked inputs.new) fault
        ⊎ (fault ≡ OutOfMemory)) }
    ensures same_files { I.files inputs.new ≡ I.files inputs.old }
    ensures same_folders { I.folders inputs.new ≡ I.folders inputs.old }
    ensures same_closed { I.closed inputs.new ≡ I.closed inputs.old }
    ensures count { IfOk result (λ opened. length opened.items ≡ length paths.now) }
    ensures each_once { OnOk result
        (I.asked inputs.new ≡ I.asked inputs.old + length paths.now) }
    ensures at_most { I.asked inputs.new ≤ I.asked inputs.old + length paths.now }
{
    let mut opened = Vec::new(alloc);
    for (k, path) in paths.iter().enumerate() {
        let input = open_one(inputs, k + 1, path, paths.len())?;
        if opened.push(input).is_err() {
            return Err(CommandFault::OutOfMemory);
        }
    }
    Ok(opened)
}

// Opens the input with this number, one of so many, and reads its first bytes.
fn open_one<I: Inputs>(
    inputs: &mut I,
    number: usize,
    path: &str,
    among: usize,
) -> Result<JoinInput<I::Input>, CommandFault>
    ensures opened { IfOk result (IsOpened (I.files inputs.old) I.Input.unread path.now) }
    ensures failed { IfErr result (IsNotOpened (I.files inputs.old) I.Input.unread
        number path.now) }
    ensures same_files { I.files inputs.new ≡ I.files inputs.old }
    ensures same_folders { I.folders inputs.new ≡ I.folders inputs.old }
    ensures same_closed { I.closed inputs.new ≡ I.closed inputs.old }
    ensures asked { I.asked inputs.new ≡ I.asked inputs.old + 1 }
{
    let source = inputs.open(number, path, among)?;
    match JoinInput::open(source) {
        Ok(input) => Ok(input),
        Err(_) => Err(CommandFault::Input(number, ReadFault::Read)),
    }
}
