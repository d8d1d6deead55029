//! The folder beside OUT: made, locked, and emptied of what a killed run left.
ghost use Rattle.std.specs.Prelude.{◌≡◌, true, None, Some, IfOk, IfSome, IsSome, OnOk};
ghost use Rattle.std.specs.Prelude.{option_map, string_bytes};
ghost use Rattle.std.specs.Path.{path_buf_bytes};
ghost use Rattle.flute_calls.specs.Disks.{Renames, Syncs};
ghost use Rattle.flute_calls.specs.Moments.{Always, Does};
ghost use Rattle.flute_output.specs.DiskWrites.{OnlyNames};

use crate::beside::{check_name, rename};
use crate::name_pair::{ATTEMPTS, NamePair};
use flute_calls::{CallFault, FolderCalls};

/// Makes the folder beside OUT, without files, and locked. What a killed run left there is taken
/// over, and its files are removed.
///
/// # Errors
///
/// If a call failed, OUT is there, whatever it is, or what has the name beside it is not a folder
/// that contains only files, or a running program has that locked.
pub fn make_folder<C: FolderCalls>(
    calls: &mut C,
    out: &str,
    beside: &str,
) -> Result<C::File, CallFault>
    ensures made { C.told ≡ true → IfOk result (λ folder.
        ((C.run calls.new).now.names beside.now).leads
        ≡ Some (C.number folder)) }
    ensures any_moment { C.told ≡ true →
        Always (OnlyNames beside.now (C.run calls.old).now)
        (C.run calls.old) (C.run calls.new) }
{
    let mut left = ATTEMPTS;
    while left > 0 {
        left -= 1;
        match make_folder_once(calls, out, beside) {
            Err(CallFault::NotFound) => {}
            made => return made,
        }
    }
    Err(CallFault::AlreadyExists)
}

// `NotFound` if another run has taken the name away meanwhile.
fn make_folder_once<C: FolderCalls>(
    calls: &mut C,
    out: &str,
    beside: &str,
) -> Result<C::File, CallFault>
    ensures made { C.told ≡ true → IfOk result (λ folder.
        ((C.run calls.new).now.names beside.now).leads
        ≡ Some (C.number folder)) }
    ensures any_moment { C.told ≡ true →
        Always (OnlyNames beside.now (C.run calls.old).now)
        (C.run calls.old) (C.run calls.new) }
{
    if calls.look(out)?.is_some() {
        return Err(CallFault::AlreadyExists);
    }
    match calls.create_folder(beside) {
        Ok(()) | Err(CallFault::AlreadyExists) => {}
        Err(fault) => return Err(fault),
    }
    let folder = open_folder(calls, beside)?;
    calls.empty_folder(&folder, beside)?;
    Ok(folder)
}

// Opens and locks the folder that has this name.
fn open_folder<C: FolderCalls>(calls: &mut C, name: &str) -> Result<C::File, CallFault>
    ensures here { C.told ≡ true → IfOk result (λ folder.
        ((C.run calls.old).now.names name.now).leads ≡ Some (C.number folder)) }
    ensures same { C.told ≡ true → C.run calls.new ≡ C.run calls.old }
{
    if calls.is_folder(name)? == Some(false) {
        return Err(CallFault::AlreadyExists);
    }
    let folder = calls.open(name)?;
    calls.lock(&folder)?;
    check_name(calls, name, &folder)?;
    Ok(folder)
}

/// Waits until the disk has the names of the files in the folder.
///
/// # Errors
///
/// If the call failed, or no folder is open.
pub fn sync_names<C: FolderCalls>(calls: &mut C, folder: &Option<C::File>) -> Result<(), CallFault>
    ensures synced { C.told ≡ true → OnOk result (
        IfSome (option_map C.number folder.now) (λ f.
        Does (Syncs f) (C.run calls.old) (C.run calls.new))) }
    ensures open { OnOk result (IsSome folder.now) }
{
    match folder {
        Some(folder) => calls.sync_names(folder),
        None => Err(CallFault::Other),
    }
}

/// Names the folder OUT.
///
/// # Errors
///
/// If a call failed; `AlreadyExists` if OUT is there; and `NotFound` if no folder is open, or it
/// has not the name beside OUT. Both names are as before.
pub fn rename_folder<C: FolderCalls>(
    calls: &mut C,
    names: &NamePair,
    folder: &Option<C::File>,
) -> Result<(), CallFault>
    ensures put { C.told ≡ true → OnOk result (
        Does (Renames (string_bytes names.now.beside) (path_buf_bytes names.now.out))
        (C.run calls.old) (C.run calls.new)) }
    ensures checked { C.told ≡ true → OnOk result (
        ((C.run calls.old).now.names (string_bytes names.now.beside)).leads
        ≡ option_map C.number folder.now) }
    ensures free { C.told ≡ true → OnOk result (
        ((C.run calls.old).now.names (path_buf_bytes names.now.out)).leads ≡ None) }
    ensures open { OnOk result (IsSome folder.now) }
{
    // A rename would replace an empty folder.
    let there = calls.look(names.out.as_str())?;
    if there.is_some() {
        return Err(CallFault::AlreadyExists);
    }
    rename(calls, names, folder)
}

/// Removes the folder beside OUT with all files in it.
///
/// # Errors
///
/// If a call failed, and `NotFound` if no folder is open, or it has not the name beside OUT.
pub fn take_folder_away<C: FolderCalls>(
    calls: &mut C,
    names: &NamePair,
    folder: &Option<C::File>,
) -> Result<(), CallFault>
    ensures removed { C.told ≡ true → OnOk result (
        ((C.run calls.new).now.names (string_bytes names.now.beside)).leads ≡ None) }
    ensures checked { C.told ≡ true → OnOk result (
        ((C.run calls.old).now.names (string_bytes names.now.beside)).leads
        ≡ option_map C.number folder.now) }
    ensures open { OnOk result (IsSome folder.now) }
{
    let Some(folder) = folder else {
        return Err(CallFault::NotFound);
    };
    check_name(calls, &names.beside, folder)?;
    calls.empty_folder(folder, &names.beside)?;
    calls.remove_folder(&names.beside)
}
