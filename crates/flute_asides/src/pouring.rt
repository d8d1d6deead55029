//! A file without a name is copied to a sink, and emptied.
ghost use Rattle.std.specs.Prelude.{◌≡◌, ◌≢◌, ◌+◌, ◌≤◌, Some, [], true, false, length, option_map};
ghost use Rattle.std.specs.Prelude.{IfOk, OnErr, OnOk, List, ℕ, take, if◌then◌else◌, is_ok};
ghost use Rattle.std.specs.Io.KnownBytes.{Appends};
ghost use Rattle.flute_parts.specs.Devices.{AppendsPart};
ghost use Rattle.flute_asides.specs.Asides.{HasStored, IsEmptied, stored};
ghost use Rattle.flute_asides.specs.declared.pouring.Poured.TheVariants.{Part};

use crate::aside_calls::AsideCalls;
use crate::unnamed_file::UnnamedFile;
use flute_parts::{DeviceFault, Sink};
use std::io::Read;

/// How many bytes of a file are read at once.
const CHUNK: usize = 65_536;

/// What became of a file that was to be copied and emptied.
#[derive(Clone, Copy, Drop)]
pub enum Poured {
    /// All was copied.
    All,
    /// All was copied, but the file could not be emptied.
    Copied,
    /// A part was copied.
    Part,
}

impl Poured {
    /// Whether bytes are left to be copied, of the file or of these behind it, after a failure.
    pub fn leaves_some(self, held: &[u8]) -> bool
        ensures part { self ≡ Part → result ≡ true }
        ensures held { self ≢ Part → result ≡ true → held.now ≢ [] }
    {
        match self {
            Poured::All => false,
            Poured::Copied => !held.is_empty(),
            Poured::Part => true,
        }
    }
}

/// Copies the first bytes of a file, so many, to a sink, and empties the file. If that fails the
/// file is closed.
///
/// # Errors
///
/// `DeviceFault` if the sink failed.
pub fn pour<C: AsideCalls + Drop, W: Sink>(
    file: &mut UnnamedFile<C>,
    count: u64,
    sink: &mut W,
) -> Result<Poured, DeviceFault>
    ensures copied { C.told ≡ true
        → HasStored (option_map C.opened file.old.file) count (C.run file.old.calls).now
        → IfOk result (λ p. p ≢ Part → Appends (W.written sink.old) (W.written sink.new)
        (stored (option_map C.opened file.old.file) count (C.run file.old.calls).now)) }
    ensures part { C.told ≡ true
        → HasStored (option_map C.opened file.old.file) count (C.run file.old.calls).now
        → IfOk result (λ p. p ≡ Part → AppendsPart (W.written sink.old) (W.written sink.new)
        (stored (option_map C.opened file.old.file) count (C.run file.old.calls).now)) }
    ensures failed { C.told ≡ true
        → HasStored (option_map C.opened file.old.file) count (C.run file.old.calls).now
        → OnErr result (AppendsPart (W.written sink.old) (W.written sink.new)
        (stored (option_map C.opened file.old.file) count (C.run file.old.calls).now)) }
    ensures emptied { C.told ≡ true
        → IsEmptied (option_map C.opened file.new.file) (C.run file.new.calls).now }
    ensures failures { W.failures sink.new
        ≡ W.failures sink.old + (if is_ok result then 0 else 1) }
{
    match copy(file, count, sink) {
        Ok(true) => Ok(if file.empty() {
            Poured::All
        } else {
            Poured::Copied
        }),
        Ok(false) => {
            file.close();
            Ok(Poured::Part)
        }
        Err(fault) => {
            file.close();
            Err(fault)
        }
    }
}

// Copies the first bytes of a file, so many, to a sink; false if the file failed.
fn copy<C: AsideCalls + Drop, W: Sink>(
    file: &mut UnnamedFile<C>,
    count: u64,
    sink: &mut W,
) -> Result<bool, DeviceFault>
    ensures copied { C.told ≡ true
        → HasStored (option_map C.opened file.old.file) count (C.run file.old.calls).now
        → IfOk result (λ is. is ≡ true → Appends (W.written sink.old) (W.written sink.new)
        (stored (option_map C.opened file.old.file) count (C.run file.old.calls).now)) }
    ensures part { C.told ≡ true
        → HasStored (option_map C.opened file.old.file) count (C.run file.old.calls).now
        → IfOk result (λ is. is ≡ false → AppendsPart (W.written sink.old) (W.written sink.new)
        (stored (option_map C.opened file.old.file) count (C.run file.old.calls).now)) }
    ensures failed { C.told ≡ true
        → HasStored (option_map C.opened file.old.file) count (C.run file.old.calls).now
        → OnErr result (AppendsPart (W.written sink.old) (W.written sink.new)
        (stored (option_map C.opened file.old.file) count (C.run file.old.calls).now)) }
    ensures failures { W.failures sink.new
        ≡ W.failures sink.old + (if is_ok result then 0 else 1) }
{
    let Ok(()) = file.rewind() else {
        return Ok(count == 0);
    };
    copy_on(file, count, sink)
}

// Copies the next bytes of a file, so many, to a sink; false if the file failed.
fn copy_on<C: AsideCalls + Drop, W: Sink>(
    file: &mut UnnamedFile<C>,
    count: u64,
    sink: &mut W,
) -> Result<bool, DeviceFault>
    ensures copied { (all : List ℕ) → ⟦<UnnamedFile<C> as Read>⟧.remaining file.old ≡ Some all
        → count ≤ length all → IfOk result (λ is. is ≡ true
        → Appends (W.written sink.old) (W.written sink.new) (take count all)) }
    ensures part { (all : List ℕ) → ⟦<UnnamedFile<C> as Read>⟧.remaining file.old ≡ Some all
        → count ≤ length all → IfOk result (λ is. is ≡ false
        → AppendsPart (W.written sink.old) (W.written sink.new) (take count all)) }
    ensures failed { (all : List ℕ) → ⟦<UnnamedFile<C> as Read>⟧.remaining file.old ≡ Some all
        → count ≤ length all → OnErr result (
        AppendsPart (W.written sink.old) (W.written sink.new) (take count all)) }
    ensures failures { W.failures sink.new
        ≡ W.failures sink.old + (if is_ok result then 0 else 1) }
{
    let mut buffer = [0; CHUNK];
    let mut left = count;
    while left > 0 {
        let part = left.min(CHUNK as u64) as usize;
        let piece = &mut buffer[..part];
        let Ok(()) = file.read_exact(piece) else {
            return Ok(false);
        };
        sink.write_all(piece)?;
        left -= part as u64;
    }
    Ok(true)
}
