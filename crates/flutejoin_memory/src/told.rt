//! What became of a world, for contracts alone. It has no size, and its calls do nothing at run
//! time.
ghost use Rattle.std.specs.Prelude.{◌≡◌};
ghost use Rattle.std.specs.Borrow.{ftrue};
ghost use Rattle.flute_memory.specs.Memory.{memory_entries};
ghost use Rattle.flute_memory.specs.NewMemory.{memory_places};
ghost use Rattle.flutejoin_memory.specs.MemoryFiles.{Changed, unchanged, with_closed, with_folder};

use flute_memory::{MemoryFolder, MemoryNewFolder};
use std::marker::Model;

/// The outputs and the new folders that were closed.
#[derive(Debug, Drop)]
pub struct Told {
    pub ghost changed: { Changed },
}

impl Model for Told {
    ghost also_owns = { λ _. ftrue };
}

impl Told {
    /// Nothing was closed.
    pub fn none() -> Told
        ensures { result.changed ≡ unchanged }
    {
        Told {}
    }

    /// The output of this name is closed too, with what this folder has.
    pub fn and_closed(&self, name: &str, folder: &MemoryFolder) -> Told
        ensures { result.changed
            ≡ with_closed name.now (memory_entries folder.now) self.now.changed }
    {
        Told {}
    }

    /// The new folder of this name is closed too, with what it has.
    pub fn and_folder(&self, name: &str, folder: &MemoryNewFolder) -> Told
        ensures { result.changed
            ≡ with_folder name.now (memory_places folder.now) self.now.changed }
    {
        Told {}
    }
}
