//! The file beside OUT: made, filled, and put in OUT's place, one call at a time.
ghost use Rattle.std.specs.Prelude.{◌≡◌, true, Some, IfOk, IfSome, IsSome, OnOk, OnErr};
ghost use Rattle.std.specs.Prelude.{option_map, string_bytes, MatchOption};
ghost use Rattle.std.specs.Path.{path_buf_bytes};
ghost use Rattle.flute_calls.specs.Disks.{Confirms, OnlyTouches, Renames, Spoils, Syncs, Touches};
ghost use Rattle.flute_calls.specs.Disks.{Unlinks};
ghost use Rattle.flute_calls.specs.Moments.{Always, Does, IsSame, Passes};
ghost use Rattle.flute_output.specs.DiskWrites.{IsBegun, Extends};

use crate::name_pair::{ATTEMPTS, NamePair};
use flute_calls::{CallFault, Calls, FileId};

/// What the file beside OUT has to be, and what must not have changed.
#[derive(Drop)]
pub struct Wanted {
    /// Its permissions: OUT's, or those of a new file less what the user's mask takes away.
    pub mode: u32,
    /// Whether OUT is there.
    pub replaces: bool,
    /// Which file OUT was before the inputs were opened, if it was there.
    pub before: Option<FileId>,
    /// Which files it may not be.
    pub inputs: Vec<FileId>,
}

/// Makes the file beside OUT, empty, locked, and with OUT's mode. What a killed run left there is
/// removed first.
///
/// # Errors
///
/// If a call failed; if OUT may not be read and written, or another file has become OUT since the
/// inputs were opened; and if what is beside OUT is one of the inputs, or no regular file, or a
/// running program has it locked. Only what a killed run left may be gone then.
pub fn make<C: Calls>(
    calls: &mut C,
    out: &str,
    beside: &str,
    wanted: &Wanted,
) -> Result<C::File, CallFault>
    ensures made { C.told ≡ true → IfOk result (λ file.
        IsBegun beside.now (C.number file) (C.run calls.new).now) }
    ensures expected { C.told ≡ true → OnOk result (
        option_map C.identified wanted.now.before
        ≡ ((C.run calls.new).now.names out.now).leads) }
    ensures any_moment { C.told ≡ true →
        Always (OnlyTouches beside.now (C.run calls.old).now) (C.run calls.old) (C.run calls.new) }
{
    if wanted.replaces {
        calls.open_to_write(out)?;
    }
    let mut left = ATTEMPTS;
    while left > 0 {
        left -= 1;
        match make_once(calls, out, beside, wanted) {
            Err(CallFault::NotFound | CallFault::AlreadyExists) => {}
            made => return made,
        }
    }
    Err(CallFault::AlreadyExists)
}

// `NotFound` if another run has taken the name away meanwhile, and `AlreadyExists` if it has the
// name, or what is beside OUT is not to be removed.
fn make_once<C: Calls>(
    calls: &mut C,
    out: &str,
    beside: &str,
    wanted: &Wanted,
) -> Result<C::File, CallFault>
    ensures made { C.told ≡ true → IfOk result (λ file.
        IsBegun beside.now (C.number file) (C.run calls.new).now) }
    ensures expected { C.told ≡ true → OnOk result (
        option_map C.identified wanted.now.before
        ≡ ((C.run calls.new).now.names out.now).leads) }
    ensures any_moment { C.told ≡ true →
        Always (OnlyTouches beside.now (C.run calls.old).now) (C.run calls.old) (C.run calls.new) }
{
    remove_leftover(calls, beside, &wanted.inputs)?;
    let file = calls.create_new(beside, wanted.mode)?;
    match finish_making(calls, out, beside, wanted, &file) {
        Ok(()) => Ok(file),
        Err(fault) => {
            let _ = remove(calls, beside, &file);
            Err(fault)
        }
    }
}

// Removes what a killed run left beside OUT.
fn remove_leftover<C: Calls>(
    calls: &mut C,
    beside: &str,
    inputs: &[FileId],
) -> Result<(), CallFault>
    ensures any_moment { C.told ≡ true →
        Always (OnlyTouches beside.now (C.run calls.old).now) (C.run calls.old) (C.run calls.new) }
{
    let Some(found) = calls.look(beside)? else {
        return Ok(());
    };
    if !found.is_regular || inputs.contains(&found.id) {
        return Err(CallFault::AlreadyExists);
    }
    let leftover = calls.open(beside)?;
    remove(calls, beside, &leftover)
}

// Removes the name of a file that has it still. A file that is locked is that of a running program.
fn remove<C: Calls>(calls: &mut C, beside: &str, file: &C::File) -> Result<(), CallFault>
    ensures any_moment { C.told ≡ true →
        Always (OnlyTouches beside.now (C.run calls.old).now) (C.run calls.old) (C.run calls.new) }
{
    calls.lock(file)?;
    check_name(calls, beside, file)?;
    calls.unlink(beside)
}

// Locks the file, and gives it OUT's mode, of which the user's mask may have taken some away. Since
// the file is locked, no other run puts its own in OUT's place from now on; one that did so since
// the inputs were opened may have joined to OUT what they lack.
fn finish_making<C: Calls>(
    calls: &mut C,
    out: &str,
    beside: &str,
    wanted: &Wanted,
    file: &C::File,
) -> Result<(), CallFault>
    ensures here { C.told ≡ true → OnOk result (
        ((C.run calls.old).now.names beside.now).leads ≡ Some (C.number file.now)) }
    ensures expected { C.told ≡ true → OnOk result (
        option_map C.identified wanted.now.before
        ≡ ((C.run calls.old).now.names out.now).leads) }
    ensures same { C.told ≡ true → C.run calls.new ≡ C.run calls.old }
{
    calls.lock(file)?;
    check_name(calls, beside, file)?;
    let now = match calls.look(out)? {
        Some(found) => Some(found.id),
        None => None,
    };
    if now != wanted.before {
        return Err(CallFault::Locked);
    }
    if wanted.replaces {
        calls.set_mode(file, wanted.mode)?;
    }
    Ok(())
}

/// Checks that this file has the name.
///
/// # Errors
///
/// If a call failed, and `NotFound` if there is none, or another run has taken its name away.
pub fn check_name<C: Calls>(calls: &mut C, name: &str, file: &C::File) -> Result<(), CallFault>
    ensures here { C.told ≡ true → OnOk result (
        ((C.run calls.old).now.names name.now).leads ≡ Some (C.number file.now)) }
    ensures same { C.told ≡ true → C.run calls.new ≡ C.run calls.old }
{
    let Some(found) = calls.look(name)? else {
        return Err(CallFault::NotFound);
    };
    let seen = calls.look_at(file)?;
    if found.id == seen.id {
        Ok(())
    } else {
        Err(CallFault::NotFound)
    }
}

// Appends all the bytes to the file, in as many calls as that needs. After a fault it is not known
// what the file has got behind what it had.
fn fill<C: Calls>(calls: &mut C, file: &mut C::File, bytes: &[u8]) -> Result<(), CallFault>
    ensures same_file { C.number file.new ≡ C.number file.old }
    ensures filled { C.told ≡ true → OnOk result (
        Passes (Touches (C.number file.old)) (Extends (C.number file.old) bytes.now)
        (C.run calls.old) (C.run calls.new)) }
    ensures refused { C.told ≡ true → OnErr result (
        Passes (Touches (C.number file.old)) (Spoils (C.number file.old))
        (C.run calls.old) (C.run calls.new)) }
{
    let mut written = 0;
    while written < bytes.len() {
        written += calls.write(file, &bytes[written..])?;
    }
    Ok(())
}

/// Appends all the bytes to the file, in as many calls as that needs.
///
/// # Errors
///
/// If a call failed, or the file is not open. What it has got behind what it had is then not known.
pub fn fill_file<C: Calls>(
    calls: &mut C,
    file: &mut Option<C::File>,
    bytes: &[u8],
) -> Result<(), CallFault>
    ensures same_file { option_map C.number file.new ≡ option_map C.number file.old }
    ensures filled { C.told ≡ true → OnOk result (
        IfSome (option_map C.number file.old) (λ k.
        Passes (Touches k) (Extends k bytes.now) (C.run calls.old) (C.run calls.new))) }
    ensures refused { C.told ≡ true → OnErr result (MatchOption (option_map C.number file.old)
        (C.run calls.new ≡ C.run calls.old)
        (λ k. Passes (Touches k) (Spoils k) (C.run calls.old) (C.run calls.new))) }
    ensures open { OnOk result (IsSome file.old) }
{
    match file {
        Some(file) => fill(calls, file, bytes),
        None => Err(CallFault::Other),
    }
}

/// Waits until the disk has all of the file.
///
/// # Errors
///
/// If the call failed, or the file is not open.
pub fn sync_file<C: Calls>(calls: &mut C, file: &Option<C::File>) -> Result<(), CallFault>
    ensures synced { C.told ≡ true → OnOk result (
        IfSome (option_map C.number file.now) (λ k.
        Does (Syncs k) (C.run calls.old) (C.run calls.new))) }
    ensures refused { C.told ≡ true → OnErr result (MatchOption (option_map C.number file.now)
        (C.run calls.new ≡ C.run calls.old)
        (λ k. Passes (Touches k) (Touches k) (C.run calls.old) (C.run calls.new))) }
    ensures open { OnOk result (IsSome file.now) }
{
    match file {
        Some(file) => calls.fsync(file),
        None => Err(CallFault::Other),
    }
}

/// Waits until the disk has the names in the folder.
///
/// # Errors
///
/// If the call failed, or the folder is not open.
pub fn sync_parent<C: Calls>(calls: &mut C, folder: &Option<C::Folder>) -> Result<(), CallFault>
    ensures synced { C.told ≡ true → OnOk result (
        IfSome folder.now (λ f.
        Does (Confirms (C.has_name f)) (C.run calls.old) (C.run calls.new))) }
    ensures refused { C.told ≡ true → OnErr result (
        Passes IsSame IsSame (C.run calls.old) (C.run calls.new)) }
    ensures open { OnOk result (IsSome folder.now) }
{
    match folder {
        Some(folder) => calls.sync_folder(folder),
        None => Err(CallFault::Other),
    }
}

/// Names the file, or the folder, OUT.
///
/// # Errors
///
/// If a call failed, and `NotFound` if it is not open, or has not the name beside OUT. Both
/// names are as before.
pub fn rename<C: Calls>(
    calls: &mut C,
    names: &NamePair,
    file: &Option<C::File>,
) -> Result<(), CallFault>
    ensures put { C.told ≡ true → OnOk result (
        Does (Renames (string_bytes names.now.beside) (path_buf_bytes names.now.out))
        (C.run calls.old) (C.run calls.new)) }
    ensures checked { C.told ≡ true → OnOk result (
        ((C.run calls.old).now.names (string_bytes names.now.beside)).leads
        ≡ option_map C.number file.now) }
    ensures open { OnOk result (IsSome file.now) }
    ensures refused { C.told ≡ true → OnErr result (
        Passes IsSame IsSame (C.run calls.old) (C.run calls.new)) }
{
    let Some(file) = file else {
        return Err(CallFault::NotFound);
    };
    check_name(calls, &names.beside, file)?;
    calls.rename(&names.beside, names.out.as_str())
}

/// Removes the file beside OUT.
///
/// # Errors
///
/// As those of `rename`.
pub fn take_away<C: Calls>(
    calls: &mut C,
    names: &NamePair,
    file: &Option<C::File>,
) -> Result<(), CallFault>
    ensures removed { C.told ≡ true → OnOk result (
        Does (Unlinks (string_bytes names.now.beside)) (C.run calls.old) (C.run calls.new)) }
    ensures checked { C.told ≡ true → OnOk result (
        ((C.run calls.old).now.names (string_bytes names.now.beside)).leads
        ≡ option_map C.number file.now) }
    ensures open { OnOk result (IsSome file.now) }
    ensures refused { C.told ≡ true → OnErr result (
        Passes IsSame IsSame (C.run calls.old) (C.run calls.new)) }
{
    let Some(file) = file else {
        return Err(CallFault::NotFound);
    };
    check_name(calls, &names.beside, file)?;
    calls.unlink(&names.beside)
}
