//! The byte ranges of the object that a walk is at; the last may still grow.
ghost use Rattle.std.specs.Prelude.{◌≡◌, ◌+◌, Some, None, OnOk, IfSome, if◌then◌else◌, is_ok};
ghost use Rattle.std.specs.Io.KnownBytes.{Appends};
ghost use Rattle.flutejoin.specs.Ranges.{ended_line, gap_range, last_range, range_after};
ghost use Rattle.flutejoin.specs.Ranges.{range_lines};

use crate::aside::Aside;
use crate::gaps::byte_range::{ByteRange, range_of, range_text};
use crate::lines::form::Form;
use crate::lines::report_lines::write_words;
use flute_parts::{DeviceFault, Info};
use flute_store::Gap;

/// What is remembered of the byte ranges of the open object. The lines of all but the last of them
/// were put aside.
#[derive(Drop)]
pub struct OpenRanges {
    /// Its one information.
    pub info: Option<Info>,
    /// The last range, which the next gap may continue.
    pub last: Option<ByteRange>,
}

impl OpenRanges {
    /// The ranges of no object.
    pub fn new() -> OpenRanges
        ensures { result.last ≡ None }
    {
        OpenRanges {
            info: None,
            last: None,
        }
    }

    /// An object with this information begins.
    #[inline(always)]
    pub fn begin(&mut self, info: &Info)
        ensures info { self.new.info ≡ Some info.now }
        ensures last { self.new.last ≡ self.old.last }
    {
        self.info = Some(*info);
    }

    /// Takes the next gap of the object. If the last range does not go on with it, the line of that
    /// range is put aside.
    ///
    /// # Errors
    ///
    /// If the line could not be put aside.
    pub fn add<A: Aside>(&mut self, form: Form, gap: &Gap, lines: &mut A) -> Result<(), DeviceFault>
        ensures info { self.new.info ≡ self.old.info }
        ensures last { OnOk result (IfSome self.old.info (λ info.
            self.new.last ≡ last_range self.old.last (gap_range info gap.now))) }
        ensures line { OnOk result (IfSome self.old.info (λ info.
            Appends (A.written lines.old) (A.written lines.new)
            (ended_line form self.old.last (gap_range info gap.now)))) }
        ensures failures { A.failures lines.new
            ≡ A.failures lines.old + (if is_ok result then 0 else 1) }
    {
        let Some(info) = self.info else {
            return Ok(());
        };
        let Some(next) = range_of(&info, gap) else {
            return Ok(());
        };
        match self.last {
            Some(last) if last.end == next.first => {
                self.last = Some(ByteRange {
                    first: last.first,
                    end: next.end,
                });
                Ok(())
            }
            _ => {
                self.end(form, lines)?;
                self.last = Some(next);
                Ok(())
            }
        }
    }

    /// Puts aside the line of the last range, if there is one.
    ///
    /// # Errors
    ///
    /// If it could not be put aside.
    pub fn end<A: Aside>(&mut self, form: Form, lines: &mut A) -> Result<(), DeviceFault>
        ensures info { self.new.info ≡ self.old.info }
        ensures last { self.new.last ≡ None }
        ensures line { OnOk result
            (Appends (A.written lines.old) (A.written lines.new) (range_lines form self.old.last)) }
        ensures failures { A.failures lines.new
            ≡ A.failures lines.old + (if is_ok result then 0 else 1) }
    {
        match self.last.take() {
            Some(last) => write_words(lines, range_text(form, last)),
            None => Ok(()),
        }
    }
}
