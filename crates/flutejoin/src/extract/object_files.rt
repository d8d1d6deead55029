//! Whole objects as files, and the line of each object, written as a walk tells of them.
ghost use Rattle.std.specs.Prelude.{◌≡◌, ◌+◌, ◌≤◌, ◌++◌, List, ℕ, Some, None, OnOk, IfOk, Option};
ghost use Rattle.std.specs.Prelude.{if◌then◌else◌, is_ok, is_some, length, option_map, take};
ghost use Rattle.flute_output.specs.NewFolders.{FolderStays, Fills, LeadsTo, Makes, NamedFile};
ghost use Rattle.flute_output.specs.NewFolders.{Places, puts};
ghost use Rattle.flutejoin.specs.ObjectFiles.{HasFiles, Lasting, lasting, one_file};

use crate::extract::file_names::file_name;
use crate::gaps::held_lines::status_text;
use crate::lines::report_lines::write_words;
use crate::walk::visitor::Visitor;
use flute_output::NewFolder;
use flute_parts::{DeviceFault, Info, Key, Sink};
use flute_store::{Gap, Status};

/// The files of objects that are whole, and the line of each object.
#[derive(Drop)]
pub struct ObjectFiles<'a, D, W> {
    pub folder: &'a mut D,
    pub lines: &'a mut W,
    /// How many files were written.
    pub written: u64,
    /// How many bytes of the open object its file does not have yet. None if no file is open, as a
    /// symbol of the object is not held as one fitting value.
    pub left: Option<u64>,
}

impl<D: NewFolder, W: Sink> Visitor for ObjectFiles<'_, D, W> {
    // The folder and the lines as they were.
    ghost At = { Option Places × Option (List ℕ) };

    ghost Has = { λ at objects progress v. HasFiles at objects progress (D.places v.folder.now)
        (W.written v.lines.now) v.written v.left };

    ghost Kept = { (ℕ × ℕ) × Option Lasting };

    ghost kept = { λ v. (
      (v.folder.ghost_name, v.lines.ghost_name),
      option_map lasting (D.places v.folder.now),
    ) };

    ghost fails = { λ v. D.failures v.folder.now + W.failures v.lines.now };

    fn begins(&mut self, key: &Key, info: &Info) -> Result<(), DeviceFault> {
        self.folder.begin(file_name(key).as_slice())?;
        self.left = Some(info.length());
        Ok(())
    }

    #[inline(always)]
    fn fits(&mut self, value: &[u8]) -> Result<(), DeviceFault> {
        match self.left {
            Some(left) => {
                let first = &value[..left.min(value.len() as u64) as usize];
                self.left = Some(left - first.len() as u64);
                self.folder.put(first)
            }
            None => Ok(()),
        }
    }

    fn lacks(&mut self) -> Result<(), DeviceFault> {
        drop_file(self.left.take(), self.folder)
    }

    #[inline(always)]
    fn gap(&mut self, _gap: &Gap) -> Result<(), DeviceFault> {
        drop_file(self.left.take(), self.folder)
    }

    fn ends(&mut self, key: &Key, status: Status, _conflicts: u64) -> Result<(), DeviceFault> {
        let kept = keep_file(self.left.take(), self.folder)?;
        self.written += kept;
        write_words(self.lines, status_text(key, status))
    }
}

// Removes the open file, if there is one.
#[inline(always)]
fn drop_file<D: NewFolder>(left: Option<u64>, folder: &mut D) -> Result<(), DeviceFault>
    ensures dropped { (files : List NamedFile) (file : Option NamedFile) (p0 : Option Places)
        → is_some left ≡ is_some file → LeadsTo (Fills files file) p0 (D.places folder.old)
        → OnOk result (LeadsTo (Fills files None) p0 (D.places folder.new)) }
    ensures stays { LeadsTo FolderStays (D.places folder.old) (D.places folder.new) }
    ensures failures { D.failures folder.new
        ≡ D.failures folder.old + (if is_ok result then 0 else 1) }
{
    match left {
        Some(_) => folder.leave(),
        None => Ok(()),
    }
}

// Keeps the open file, if there is one. Returns how many were kept.
fn keep_file<D: NewFolder>(left: Option<u64>, folder: &mut D) -> Result<u64, DeviceFault>
    ensures kept { (files : List NamedFile) (file : Option NamedFile) (p0 : Option Places)
        → is_some left ≡ is_some file → LeadsTo (Fills files file) p0 (D.places folder.old)
        → IfOk result (λ n. LeadsTo (Fills (files ++ one_file file) None) p0 (D.places folder.new)
        × (n ≡ length (one_file file))) }
    ensures few { IfOk result (λ n. n ≤ 1) }
    ensures stays { LeadsTo FolderStays (D.places folder.old) (D.places folder.new) }
    ensures failures { D.failures folder.new
        ≡ D.failures folder.old + (if is_ok result then 0 else 1) }
{
    match left {
        Some(_) => {
            folder.keep()?;
            Ok(1)
        }
        None => Ok(0),
    }
}
