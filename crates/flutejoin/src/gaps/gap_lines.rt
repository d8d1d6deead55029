//! The lines of objects and of their gaps, put aside as a walk tells of them.
ghost use Rattle.std.specs.Prelude.{◌≡◌, ◌+◌, ◌⊎◌, [], None, ℕ, Bool, List, true, IfOk, OnErr, OnOk};
ghost use Rattle.std.specs.Prelude.{if◌then◌else◌, is_ok};
ghost use Rattle.std.specs.Io.KnownBytes.{Appends};
ghost use Rattle.flute_parts.specs.Devices.{AppendsPart};
ghost use Rattle.flutejoin.specs.GapLines.{HasLines};
ghost use Rattle.flutejoin.specs.Progress.{gaps_so_far, info_so_far};
ghost use Rattle.flutejoin.specs.Styles.{are_whole, printed};
ghost use Rattle.flutejoin.specs.Told.{Told};
ghost use Rattle.flutejoin.specs.declared.lines.style.Style.{Style as Known};

use crate::aside::Aside;
use crate::gaps::closed_objects::{ClosedObjects, end_session};
use crate::gaps::held_lines::gap_text_in;
use crate::gaps::open_ranges::OpenRanges;
use crate::lines::report_lines::write_words;
use crate::lines::style::Style;
use crate::walk::visitor::Visitor;
use flute_parts::{DeviceFault, Info, Key, Sink};
use flute_store::{Gap, Status};

/// The lines of objects, and, elsewhere, those of the gaps of the open one: they follow the line of
/// its status, which is known when all its facts came.
#[derive(Drop)]
pub struct GapLines<'a, A> {
    pub style: Style,
    pub closed: ClosedObjects,
    pub ranges: OpenRanges,
    pub lines: &'a mut A,
    pub gap_lines: &'a mut A,
}

impl<A: Aside> GapLines<'_, A> {
    /// Writes all lines that were put aside, after that of the last session, if there is one.
    /// Returns whether all objects that are listed are whole.
    ///
    /// # Errors
    ///
    /// If the line could not be put aside; nothing was written then. If the lines could not be read
    /// back or the sink failed: it took a proper prefix of the lines.
    pub fn finish<W: Sink>(&mut self, sink: &mut W) -> Result<bool, DeviceFault>
        ensures printed { (objects : List Told) → HasLines A.written true objects None [] self.old
            → IfOk result (λ all_whole.
            Appends (W.written sink.old) (W.written sink.new) (printed self.old.style objects)
            × (all_whole ≡ are_whole self.old.style objects)) }
        ensures part { (objects : List Told) → HasLines A.written true objects None [] self.old
            → OnErr result ((sink.new ≡ sink.old) ⊎ AppendsPart (W.written sink.old)
            (W.written sink.new) (printed self.old.style objects)) }
        ensures names { (self.new.lines.ghost_name ≡ self.old.lines.ghost_name)
            × (self.new.gap_lines.ghost_name ≡ self.old.gap_lines.ghost_name) }
        ensures failures { A.failures self.new.lines.now + A.failures self.new.gap_lines.now
            + W.failures sink.new
            ≡ A.failures self.old.lines.now + A.failures self.old.gap_lines.now
            + W.failures sink.old + (if is_ok result then 0 else 1) }
    {
        end_session(self.style.form, &self.closed.sums, self.lines)?;
        self.lines.move_to(sink)?;
        Ok(self.closed.all_whole)
    }
}

impl<A: Aside> Visitor for GapLines<'_, A> {
    // Whether it is known that nothing was put aside before.
    ghost At = { Bool };

    ghost Has = { λ known objects progress v. HasLines A.written known objects
        (info_so_far progress) (gaps_so_far progress) v };

    ghost Kept = { (ℕ × ℕ) × Known };

    ghost kept = { λ v. ((v.lines.ghost_name, v.gap_lines.ghost_name), v.style) };

    ghost fails = { λ v. A.failures v.lines.now + A.failures v.gap_lines.now };

    #[inline(always)]
    fn begins(&mut self, _key: &Key, info: &Info) -> Result<(), DeviceFault> {
        self.ranges.begin(info);
        Ok(())
    }

    #[inline(always)]
    fn fits(&mut self, _value: &[u8]) -> Result<(), DeviceFault> {
        Ok(())
    }

    #[inline(always)]
    fn lacks(&mut self) -> Result<(), DeviceFault> {
        Ok(())
    }

    fn gap(&mut self, gap: &Gap) -> Result<(), DeviceFault> {
        if !self.style.shows(gap.reason) {
            return Ok(());
        }
        if self.style.ranges {
            self.ranges.add(self.style.form, gap, self.gap_lines)
        } else {
            write_words(self.gap_lines, gap_text_in(self.style.form, gap))
        }
    }

    fn ends(&mut self, key: &Key, status: Status, conflicts: u64) -> Result<(), DeviceFault> {
        self.ranges.end(self.style.form, self.gap_lines)?;
        self.closed
            .add(self.style, key, status, conflicts, self.lines)?;
        self.gap_lines.move_to(self.lines)
    }
}
