//! What became of the files of names, as outputs were closed.
ghost use Rattle.std.specs.Prelude.{◌≡◌, ◌++◌, string_bytes, List, [], ◌∷◌, IfOk, false};
ghost use Rattle.std.specs.Prelude.{MatchOption, map, option_map};
ghost use Rattle.std.specs.Option.{ForSome};
ghost use Rattle.flute_memory.specs.Memory.{memory_entries};
ghost use Rattle.flute_memory.specs.NewMemory.{memory_places};
ghost use Rattle.flutejoin_memory.specs.NamedFiles.{changed};
ghost use Rattle.flutejoin_memory.specs.MemoryFiles.{NamedFile, files_of, names_of, closed_as};
ghost use Rattle.flutejoin_memory.specs.MemoryFiles.{unchanged, with_closed as closes, with_folder};

use crate::told::Told;
use flute_memory::{MemoryFolder, MemoryNewFolder};
use std::alloc::{AllocError, Global};

/// A name, and the bytes that it has, if it has some.
#[derive(Debug, Drop)]
pub struct Change {
    name: String,
    bytes: Option<Vec<u8>>,
}

impl Change {
    /// The bytes that the name has, if it has some.
    pub fn bytes(&self) -> Option<&[u8]>
        ensures { option_map (λ b. b.now) result ≡ (changed self.now).bytes }
    {
        self.bytes.as_ref().map(|bytes| bytes.as_slice())
    }
}

/// What became of names. Once there was no memory for that, nothing is known of any name, but to
/// contracts.
#[derive(Debug, Drop)]
pub struct Changes {
    known: Option<Vec<Change>>,
    has_folder: bool,
    told: Told,
    ghost agrees: { ForSome known
        (λ changes. names_of told.changed.closed ≡ map changed changes.items) },
    ghost none_yet: { has_folder ≡ false → told.changed.folders ≡ [] },
}

impl Changes {
    /// Nothing has changed.
    pub fn none(alloc: Global) -> Changes
        ensures { result.told.changed ≡ unchanged }
    {
        Changes {
            known: Some(Vec::new(alloc)),
            has_folder: false,
            told: Told::none(),
        }
    }

    /// The name and that of the file beside it now have what this folder has.
    pub fn close(&mut self, alloc: Global, name: &str, folder: &MemoryFolder)
        ensures { self.new.told.changed
            ≡ closes name.now (memory_entries folder.now) self.old.told.changed }
    {
        let told = self.told.and_closed(name, folder);
        let known = match self.known.take() {
            Some(changes) => with_closed(alloc, changes, name, folder).ok(),
            None => None,
        };
        self.told = told;
        self.known = known;
    }

    /// The name of a new folder now leads to what this folder has.
    pub fn close_folder(&mut self, name: &str, folder: &MemoryNewFolder)
        ensures { self.new.told.changed
            ≡ with_folder name.now (memory_places folder.now) self.old.told.changed }
    {
        self.told = self.told.and_folder(name, folder);
        self.has_folder = true;
    }

    /// Whether a new folder was closed.
    pub fn has_folder(&self) -> bool
        ensures { result ≡ false → self.now.told.changed.folders ≡ [] }
    {
        self.has_folder
    }

    /// The last change of this name, if it has one.
    ///
    /// # Errors
    ///
    /// `AllocError` if that is not known, as there was no memory.
    pub fn of_name(&self, name: &str) -> Result<Option<&Change>, AllocError>
        ensures { IfOk result (λ found. (rest : List NamedFile) → MatchOption found
            (files_of (names_of self.now.told.changed.closed ++ rest) name.now
            ≡ files_of rest name.now)
            (λ change. files_of (names_of self.now.told.changed.closed ++ rest) name.now
            ≡ (changed change.now).bytes)) }
    {
        match &self.known {
            Some(changes) => Ok(change_of(changes, name)),
            None => Err(AllocError),
        }
    }
}

// The first of these of this name.
fn change_of<'a>(changes: &'a [Change], name: &str) -> Option<&'a Change>
    ensures { (rest : List NamedFile) → MatchOption result
        (files_of (map changed changes.now ++ rest) name.now ≡ files_of rest name.now)
        (λ change. files_of (map changed changes.now ++ rest) name.now
        ≡ (changed change.now).bytes) }
{
    for change in changes {
        if change.name.as_str() == name {
            return Some(change);
        }
    }
    None
}

// The changes, and before them those by this folder.
fn with_closed(
    alloc: Global,
    changes: Vec<Change>,
    name: &str,
    folder: &MemoryFolder,
) -> Result<Vec<Change>, AllocError>
    ensures { IfOk result (λ all. map changed all.items
        ≡ closed_as name.now (memory_entries folder.now) ++ map changed changes.items) }
{
    let mut beside = String::from_str(alloc, name)?;
    beside.push_str(".partial")?;
    let with_beside = with_change(alloc, changes, beside, folder.beside())?;
    with_change(
        alloc,
        with_beside,
        String::from_str(alloc, name)?,
        folder.out(),
    )
}

// The changes, and before them that this name has these bytes.
fn with_change(
    alloc: Global,
    mut changes: Vec<Change>,
    name: String,
    bytes: Option<&[u8]>,
) -> Result<Vec<Change>, AllocError>
    ensures { IfOk result (λ all. map changed all.items
        ≡ record { name = string_bytes name; bytes = option_map (λ b. b.now) bytes.entry }
        ∷ map changed changes.items) }
{
    let bytes = match bytes {
        Some(bytes) => Some(bytes.to_vec(alloc)?),
        None => None,
    };
    match changes.insert(0, Change { name, bytes }) {
        Ok(()) => Ok(changes),
        Err(_) => Err(AllocError),
    }
}
