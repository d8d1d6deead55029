//! Bytes that are put aside, in memory and then in a file.
ghost use Rattle.std.specs.Prelude.{◌≡◌, ◌+◌, None, Some, [], true, false, length, option_map};
ghost use Rattle.std.specs.Prelude.{IfOk, IfSome, OnErr, OnOk, List, ℕ, if◌then◌else◌, is_ok};
ghost use Rattle.std.specs.Io.KnownBytes.{Appends};
ghost use Rattle.std.proofs.Props.{props};
ghost use Rattle.flute_parts.specs.Devices.{AppendsPart};
ghost use Rattle.flute_asides.specs.Asides.{EndsAt, HasStored, put_aside, stored};

use crate::aside_calls::AsideCalls;
use crate::aside_reader::AsideReader;
use crate::pouring::pour;
use crate::unnamed_file::UnnamedFile;
use flute_calls::CallFault;
use flute_output::FileLimit;
use flute_parts::{DeviceFault, Failures, Sink};
use std::alloc::{AllocError, Global};
use std::io::{Cursor, Read};

/// How many bytes are held in memory. What is more goes to a file.
const HELD: usize = 131_072;

type Reading<C> = AsideReader<UnnamedFile<C>, Cursor<Vec<u8>>>;

/// Bytes that are put aside: up to 128 KiB in memory, and what came before them in a file, which
/// has no name.
#[derive(Drop)]
pub struct AsideFile<C: AsideCalls + Drop> {
    alloc: Global,
    /// What the path of the file begins with.
    prefix: String,
    held: Vec<u8>,
    file: UnnamedFile<C>,
    /// How many bytes the file has, and how many it may have.
    spilled: u64,
    limit: FileLimit,
    /// Whether a write of it has failed. Then each later one does, so that no bytes are left out.
    is_broken: bool,
    failures: Failures,
    ghost end: { C.told ≡ true → is_broken ≡ false
        → EndsAt (option_map C.opened file.file) spilled
        (C.run file.calls).now } by { Prim.hlevel props },
    ghost within: { C.told ≡ true
        → HasStored (option_map C.opened file.file) spilled
        (C.run file.calls).now } by { Prim.hlevel props },
}

impl<C: AsideCalls + Drop> AsideFile<C> {
    /// Nothing is put aside yet, and no file is made. The file may become as long as this limit
    /// says.
    ///
    /// # Errors
    ///
    /// `AllocError` if there is no memory for the bytes that are held.
    pub fn new(
        calls: C,
        alloc: Global,
        limit: FileLimit,
        prefix: &str,
    ) -> Result<AsideFile<C>, AllocError>
        ensures empty { C.told ≡ true
            → IfOk result (λ aside. ⟦<AsideFile<C> as Sink>⟧.written aside ≡ Some []) }
    {
        Ok(AsideFile {
            alloc,
            prefix: String::from_str(alloc, prefix)?,
            held: Vec::with_capacity(alloc, HELD)?,
            file: UnnamedFile::none(calls),
            spilled: 0,
            limit,
            is_broken: false,
            failures: Failures::none(),
        })
    }

    // Writes the bytes that are held to the file, which is made first if there is none.
    fn spill(&mut self) -> Result<(), CallFault>
        ensures content { C.told ≡ true
            → put_aside (option_map C.opened self.new.file.file) self.new.spilled
            self.new.held.items (C.run self.new.file.calls).now
            ≡ put_aside (option_map C.opened self.old.file.file) self.old.spilled
            self.old.held.items (C.run self.old.file.calls).now }
        ensures none_held { OnOk result (self.new.held.items ≡ []) }
        ensures whole { OnOk result (self.new.is_broken ≡ false) }
        ensures failures { self.new.failures ≡ self.old.failures }
    {
        if self.is_broken {
            return Err(CallFault::Other);
        }
        if !self.file.is_made() {
            self.begin()?;
        }
        let Some(next) = self.next_length() else {
            return Err(CallFault::Other);
        };
        let appended = self.file.append(&self.held);
        if appended.is_ok() {
            self.spilled = next;
            self.held.clear();
        } else {
            self.is_broken = true;
        }
        appended
    }

    // Makes the file.
    fn begin(&mut self) -> Result<(), CallFault>
        requires { self.old.file.file ≡ None }
        ensures content { C.told ≡ true
            → put_aside (option_map C.opened self.new.file.file) self.new.spilled
            self.new.held.items (C.run self.new.file.calls).now ≡ self.old.held.items }
        ensures same_held { self.new.held ≡ self.old.held }
        ensures whole { OnOk result (self.new.is_broken ≡ false) }
        ensures failures { self.new.failures ≡ self.old.failures }
    {
        self.file.make(self.alloc, &self.prefix)?;
        self.spilled = 0;
        self.is_broken = false;
        Ok(())
    }

    // How long the file is with the bytes that are held, if it may become so.
    fn next_length(&self) -> Option<u64>
        ensures { IfSome result (λ n. n ≡ self.now.spilled + length self.now.held.items) }
    {
        if self.limit.check(self.spilled, self.held.len()).is_err() {
            return None;
        }
        self.spilled.checked_add(self.held.len() as u64)
    }

    /// Moves all the bytes to a sink. None is left here then.
    ///
    /// # Errors
    ///
    /// `DeviceFault` if one of the two failed. The sink then took a proper prefix of the bytes, and
    /// what is left here is not known.
    pub fn move_to<W: Sink>(&mut self, sink: &mut W) -> Result<(), DeviceFault>
        ensures moved { (bytes : List ℕ) → ⟦<AsideFile<C> as Sink>⟧.written self.old ≡ Some bytes
            → OnOk result (Appends (W.written sink.old) (W.written sink.new) bytes
            × (⟦<AsideFile<C> as Sink>⟧.written self.new ≡ Some [])) }
        ensures part { (bytes : List ℕ) → ⟦<AsideFile<C> as Sink>⟧.written self.old ≡ Some bytes
            → OnErr result (AppendsPart (W.written sink.old) (W.written sink.new) bytes) }
        ensures failures { ⟦<AsideFile<C> as Sink>⟧.failures self.new + W.failures sink.new
            ≡ ⟦<AsideFile<C> as Sink>⟧.failures self.old + W.failures sink.old
            + (if is_ok result then 0 else 1) }
    {
        self.empty_into(sink)?;
        sink.write_all(&self.held)?;
        self.held.clear();
        Ok(())
    }

    // Moves the bytes of the file to a sink. Those that are held come last: if the file failed, the
    // sink has a proper prefix.
    fn empty_into<W: Sink>(&mut self, sink: &mut W) -> Result<(), DeviceFault>
        ensures moved { C.told ≡ true → OnOk result (
            Appends (W.written sink.old) (W.written sink.new)
            (stored (option_map C.opened self.old.file.file) self.old.spilled
            (C.run self.old.file.calls).now)) }
        ensures none { C.told ≡ true → OnOk result (
            stored (option_map C.opened self.new.file.file) self.new.spilled
            (C.run self.new.file.calls).now ≡ []) }
        ensures part { C.told ≡ true → OnErr result (
            AppendsPart (W.written sink.old) (W.written sink.new)
            (put_aside (option_map C.opened self.old.file.file) self.old.spilled
            self.old.held.items (C.run self.old.file.calls).now)) }
        ensures same_held { self.new.held ≡ self.old.held }
        ensures failures { self.new.failures.count + W.failures sink.new
            ≡ self.old.failures.count + W.failures sink.old + (if is_ok result then 0 else 1) }
    {
        if !self.file.is_made() {
            return Ok(());
        }
        let poured = pour(&mut self.file, self.spilled, sink);
        self.spilled = 0;
        self.is_broken = false;
        if poured?.leaves_some(&self.held) {
            self.failures = self.failures.and_one();
            return Err(DeviceFault);
        }
        Ok(())
    }

    /// What reads the bytes that were put aside: they are in memory, or all of them in the file.
    ///
    /// # Errors
    ///
    /// If a call failed.
    pub fn into_reader(mut self) -> Result<Reading<C>, CallFault>
        ensures { C.told ≡ true → IfOk result (λ reader.
            ⟦<AsideReader<UnnamedFile<C>, Cursor<Vec<u8>>> as Read>⟧.remaining reader
            ≡ ⟦<AsideFile<C> as Sink>⟧.written self) }
    {
        if self.file.is_made() {
            self.spill()?;
            self.file.rewind()?;
            return Ok(AsideReader::File(self.file));
        }
        self.held.shrink_to_fit();
        Ok(AsideReader::Held(Cursor::new(self.held)))
    }
}

impl<C: AsideCalls + Drop> Sink for AsideFile<C> {
    ghost failures = { λ a. a.failures.count };

    ghost written = { λ a. if C.told then Some (put_aside (option_map C.opened a.file.file)
        a.spilled a.held.items (C.run a.file.calls).now) else None };

    fn write(&mut self, bytes: &[u8]) -> Result<usize, DeviceFault> {
        // Those that are held go to the file if there is no room for both.
        let is_full = self.held.len().saturating_add(bytes.len()) > HELD;
        if (is_full && self.spill().is_err()) || self.held.extend_from_slice(bytes).is_err() {
            self.failures = self.failures.and_one();
            return Err(DeviceFault);
        }
        Ok(bytes.len())
    }
}
