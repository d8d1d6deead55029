//! The trait `World`: the inputs, outputs and reports of a command, by their names.
ghost use Rattle.std.specs.Prelude.{◌≡◌, IfOk, IfErr, IfSome, OnOk};
ghost use Rattle.flutejoin_commands.specs.Closings.{IsNoted};
ghost use Rattle.flutejoin_commands.specs.Folders.{IsFolderAt};
ghost use Rattle.flutejoin_commands.specs.Worlds.{HasSize, IsPlaced, IsNotMade, TellsAsides};
ghost use Rattle.flutejoin_commands.specs.Worlds.{Closes, IsNotOverwritten, MayOverwrite};

use crate::opening::Inputs;
use crate::outlet::Outlet;
use flute_output::{Folder, NewFolder, Place};
use flutejoin::{Asides, CommandFault, Overwrites};

/// The files of a system, by their names: the inputs of a command, and what it writes.
///
/// The name `-` of an output means standard output.
pub trait World: Inputs {
    type Folder: Folder + Drop;

    type Device: Outlet + Drop;

    type NewFolder: NewFolder + Drop;

    type Asides: Asides<Input = Self::Input> + Drop;

    /// Looks which file an output is. It is to be called before the inputs are opened.
    fn look(&mut self, out: &str)
        ensures same_files { Self.files self.new ≡ Self.files self.old }
        ensures same_folders { Self.folders self.new ≡ Self.folders self.old }
        ensures same_closed { Self.closed self.new ≡ Self.closed self.old };

    /// How many bytes the input has that was opened last, if that is known.
    fn size(&self, input: &Self::Input) -> Option<u64>
        ensures { IfSome result (λ n. HasSize (Self.Input.unread input.now) n) };

    /// Whether the file that an output is to overwrite, if there is one, may be.
    ///
    /// # Errors
    ///
    /// Those of [`Overwrites::check`], and `OutOfMemory`.
    fn guard(&mut self, out: &str, overwrites: Overwrites) -> Result<(), CommandFault>
        ensures spared { OnOk result
            (MayOverwrite (Self.files self.old) overwrites out.now) }
        ensures kept { IfErr result IsNotOverwritten }
        ensures same_files { Self.files self.new ≡ Self.files self.old }
        ensures same_folders { Self.folders self.new ≡ Self.folders self.old }
        ensures same_closed { Self.closed self.new ≡ Self.closed self.old };

    /// What the name of an output leads to. Nothing is made.
    ///
    /// # Errors
    ///
    /// `CannotCreate` if it cannot be made, and `OutOfMemory`.
    fn place(&mut self, out: &str) -> Result<Place<Self::Folder, Self::Device>, CommandFault>
        ensures placed { IfOk result
            (IsPlaced Self.Folder.entries (Self.files self.old) out.now) }
        ensures refused { IfErr result IsNotMade }
        ensures same_files { Self.files self.new ≡ Self.files self.old }
        ensures same_folders { Self.folders self.new ≡ Self.folders self.old }
        ensures same_closed { Self.closed self.new ≡ Self.closed self.old };

    /// The new folder that an output with this name is to be. Nothing is made.
    ///
    /// # Errors
    ///
    /// `CannotCreate` if it cannot be made, and `OutOfMemory`.
    fn new_folder(&mut self, out: &str) -> Result<Self::NewFolder, CommandFault>
        ensures named { IfOk result
            (λ folder. Self.NewFolder.places folder ≡ Self.folders self.old out.now) }
        ensures refused { IfErr result IsNotMade }
        ensures same_files { Self.files self.new ≡ Self.files self.old }
        ensures same_folders { Self.folders self.new ≡ Self.folders self.old }
        ensures same_closed { Self.closed self.new ≡ Self.closed self.old };

    /// What makes that in which bytes are put aside. It is to be called once.
    fn asides(&mut self) -> Self::Asides
        ensures tells { TellsAsides (Self.files self.old) (Self.Asides.tells result) }
        ensures same_files { Self.files self.new ≡ Self.files self.old }
        ensures same_folders { Self.folders self.new ≡ Self.folders self.old }
        ensures same_closed { Self.closed self.new ≡ Self.closed self.old };

    /// Takes the folder of an output back: what became of its entries are files from now on.
    fn close(&mut self, out: &str, folder: Self::Folder)
        ensures closed { Closes out.now (Self.Folder.entries folder)
            (Self.files self.old) (Self.files self.new) }
        ensures noted { IsNoted out.now (Self.Folder.entries folder)
            (Self.closed self.old) (Self.closed self.new) }
        ensures same_folders { Self.folders self.new ≡ Self.folders self.old };

    /// Takes a new folder back: its name leads from now on to what became of it.
    fn close_folder(&mut self, out: &str, folder: Self::NewFolder)
        ensures closed { IsFolderAt out.now (Self.NewFolder.places folder)
            (Self.folders self.old) (Self.folders self.new) }
        ensures same_files { Self.files self.new ≡ Self.files self.old }
        ensures same_closed { Self.closed self.new ≡ Self.closed self.old };
}
