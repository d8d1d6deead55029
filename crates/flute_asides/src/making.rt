//! A new file whose name is taken away at once.
ghost use Rattle.std.specs.Prelude.{◌≡◌, ◌++◌, ◌≤◌, true, None, IfOk, IfSome, OnErr, string_bytes};
ghost use Rattle.flute_asides.specs.Asides.{IsUnnamed, OnlyFrees};

use crate::aside_calls::AsideCalls;
use flute_calls::CallFault;
use itoa::Buffer;
use std::alloc::{AllocError, Global};

/// How many names are tried.
const NAMES: u32 = 1_000;

/// Only the file's owner may read and write it.
const PRIVATE: u32 = 0o600;

/// Makes a new file whose path begins so, and takes its name away at once. Names of empty files
/// that were left before it are taken away too.
///
/// # Errors
///
/// If a call failed, there is no memory, or all names are in use. The file's name is left then only
/// if it could not be removed.
pub fn unnamed<C: AsideCalls>(
    calls: &mut C,
    alloc: Global,
    prefix: &str,
) -> Result<C::File, CallFault>
    ensures made { C.told ≡ true → IfOk result (λ file.
        IsUnnamed prefix.now (C.opened file) (C.run calls.old).now (C.run calls.new).now) }
    ensures refused { C.told ≡ true → OnErr result (C.stuck calls.new ≡ C.stuck calls.old
        → OnlyFrees prefix.now (C.run calls.old).now (C.run calls.new).now) }
{
    let mut digits = Buffer::new();
    let mut number = 0;
    while number < NAMES {
        if let Some(file) = unnamed_at(calls, alloc, prefix, digits.format(number))? {
            return Ok(file);
        }
        number += 1;
    }
    Err(CallFault::AlreadyExists)
}

fn path_of(alloc: Global, prefix: &str, digits: &str) -> Result<String, AllocError>
    ensures { IfOk result (λ path. string_bytes path ≡ prefix.now ++ digits.now) }
{
    let mut path = String::from_str(alloc, prefix)?;
    path.push_str(digits)?;
    Ok(path)
}

// None if something has the name, or had it: an empty file was left by a command that was killed,
// or another is about to take its name away.
fn unnamed_at<C: AsideCalls>(
    calls: &mut C,
    alloc: Global,
    prefix: &str,
    digits: &str,
) -> Result<Option<C::File>, CallFault>
    ensures made { C.told ≡ true → IfOk result (λ made. IfSome made (λ file.
        IsUnnamed prefix.now (C.opened file) (C.run calls.old).now (C.run calls.new).now)) }
    ensures in_use { C.told ≡ true → IfOk result (λ made. made ≡ None
        → OnlyFrees prefix.now (C.run calls.old).now (C.run calls.new).now) }
    ensures refused { C.told ≡ true → OnErr result (C.stuck calls.new ≡ C.stuck calls.old
        → OnlyFrees prefix.now (C.run calls.old).now (C.run calls.new).now) }
    ensures stuck { C.stuck calls.old ≤ C.stuck calls.new }
{
    let Ok(path) = path_of(alloc, prefix, digits) else {
        return Err(CallFault::Other);
    };
    match calls.create_new(&path, PRIVATE) {
        Ok(file) => {
            calls.unlink(&path)?;
            Ok(Some(file))
        }
        Err(CallFault::AlreadyExists) => {
            remove_empty(calls, &path);
            Ok(None)
        }
        Err(fault) => Err(fault),
    }
}

// Takes the name of a file without bytes away, if it has one. Whether that is done does not matter.
fn remove_empty<C: AsideCalls>(calls: &mut C, path: &str)
    ensures names { C.told ≡ true
        → OnlyFrees path.now (C.run calls.old).now (C.run calls.new).now }
    ensures stuck { C.stuck calls.old ≤ C.stuck calls.new }
{
    if let Ok(true) = calls.is_empty(path) {
        let _ = calls.unlink(path);
    }
}
