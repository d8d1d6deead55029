//! The lines of a comparison, put aside as its rows are told.
ghost use Rattle.std.specs.Prelude.{◌≡◌, ◌+◌, ◌⊎◌, ◌++◌, ◌∷◌, [], List, true, IfOk, OnErr, OnOk};
ghost use Rattle.std.specs.Prelude.{if◌then◌else◌, is_ok};
ghost use Rattle.std.specs.Io.KnownBytes.{Appends};
ghost use Rattle.flute_parts.specs.Devices.{AppendsPart};
ghost use Rattle.flute_streams.specs.declared.merge.sides.Row.{Row as ToldRow};
ghost use Rattle.flutejoin.specs.CompareLines.{are_same, compared};
ghost use Rattle.flutejoin.specs.CompareSums.{last_sums, sums_after, sums_before, with_row};
ghost use Rattle.flutejoin.specs.RowsTold.{FailsToTell, HasRows, TakesRows};

use crate::aside::Aside;
use crate::compare::compare_sums::CompareSums;
use crate::compare::row_text::row_text;
use crate::lines::compare_style::CompareStyle;
use crate::lines::form::Form;
use crate::lines::report_lines::write_words;
use flute_parts::{DeviceFault, Sink};
use flute_streams::{Row, Rows};
use std::cmp::Ordering;

/// The lines of rows.
#[derive(Drop)]
pub struct CompareLines<'a, A> {
    pub style: CompareStyle,
    /// Whether no row differs.
    pub same: bool,
    /// With a line for each session, the sums of the last one, which may have more objects.
    pub sums: Option<CompareSums>,
    pub lines: &'a mut A,
}

impl<A: Aside> CompareLines<'_, A> {
    /// Writes all lines that were put aside, after that of the last session, if there is one.
    /// Returns whether no row differs.
    ///
    /// # Errors
    ///
    /// If the line could not be put aside; nothing was written then. If the lines could not be read
    /// back or the sink failed: it took a proper prefix of the lines.
    pub fn finish<W: Sink>(&mut self, sink: &mut W) -> Result<bool, DeviceFault>
        ensures printed { (rows : List ToldRow) → HasRows A.written true rows self.old
            → IfOk result (λ same.
            Appends (W.written sink.old) (W.written sink.new) (compared self.old.style rows)
            × (same ≡ are_same rows)) }
        ensures part { (rows : List ToldRow) → HasRows A.written true rows self.old
            → OnErr result ((sink.new ≡ sink.old) ⊎ AppendsPart (W.written sink.old)
            (W.written sink.new) (compared self.old.style rows)) }
        ensures name { self.new.lines.ghost_name ≡ self.old.lines.ghost_name }
        ensures failures { A.failures self.new.lines.now + W.failures sink.new
            ≡ A.failures self.old.lines.now + W.failures sink.old
            + (if is_ok result then 0 else 1) }
    {
        end_session(self.style.form, &self.sums, self.lines)?;
        self.lines.move_to(sink)?;
        Ok(self.same)
    }
}

impl<A: Aside> Rows for CompareLines<'_, A> {
    ghost use Rattle.flutejoin.specs.RowLaws.{fails_later, takes_more, takes_none};

    ghost takes = { TakesRows A.written A.failures };

    ghost fails = { FailsToTell A.failures };

    fn row(&mut self, row: Row) -> Result<(), DeviceFault> {
        self.same &= !row.differs();
        if !self.style.summary {
            return write_words(self.lines, row_text(self.style.form, &row));
        }
        self.sums = Some(add_row(self.style.form, &self.sums, &row, self.lines)?);
        Ok(())
    }

    ghost none = { takes_none A.written A.failures };

    ghost more = { takes_more A.written A.failures };

    ghost later = { fails_later A.written A.failures };
}

// The sums of the session of the row, with it. If it is the first of its session, the line of the
// session before is put aside.
fn add_row<A: Aside>(
    form: Form,
    sums: &Option<CompareSums>,
    row: &Row,
    lines: &mut A,
) -> Result<CompareSums, DeviceFault>
    ensures sums { IfOk result (λ next.
        next ≡ with_row (sums_after sums.now row.now.key.session) row.now) }
    ensures line { OnOk result (Appends (A.written lines.old) (A.written lines.new)
        (sums_before form sums.now row.now.key.session)) }
    ensures failures { A.failures lines.new
        ≡ A.failures lines.old + (if is_ok result then 0 else 1) }
{
    if let Some(last) = sums {
        if let Ordering::Equal = last.session.cmp(&row.key.session) {
            return Ok(last.with(row));
        }
    }
    end_session(form, sums, lines)?;
    Ok(CompareSums::new(row.key.session).with(row))
}

// Puts aside the line of the last session, if there is one.
fn end_session<A: Aside>(
    form: Form,
    sums: &Option<CompareSums>,
    lines: &mut A,
) -> Result<(), DeviceFault>
    ensures line { OnOk result
        (Appends (A.written lines.old) (A.written lines.new) (last_sums form sums.now)) }
    ensures failures { A.failures lines.new
        ≡ A.failures lines.old + (if is_ok result then 0 else 1) }
{
    match sums {
        Some(sums) => write_words(lines, sums.text(form)),
        None => Ok(()),
    }
}
