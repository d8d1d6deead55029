//! What is remembered of the objects of which all facts came.
ghost use Rattle.std.specs.Prelude.{◌≡◌, ◌+◌, ◌∷◌, ◌++◌, [], List, ℕ, Bool, OnOk};
ghost use Rattle.std.specs.Prelude.{None};
ghost use Rattle.std.specs.Prelude.{if◌then◌else◌, is_ok};
ghost use Rattle.std.specs.Io.KnownBytes.{Appends};
ghost use Rattle.flutejoin.specs.Listing.{AreClosed, AreSumsWithin, ArePut};
ghost use Rattle.flutejoin.specs.Listing.{CanClose, Knows, last_line};
ghost use Rattle.flutejoin.specs.Styles.{HasNoStray, gap_lines};
ghost use Rattle.flutejoin.specs.Told.{Told};

use crate::aside::Aside;
use crate::gaps::held_lines::object_text;
use crate::gaps::session_sums::SessionSums;
use crate::lines::form::Form;
use crate::lines::report_lines::write_words;
use crate::lines::style::Style;
use flute_parts::{DeviceFault, Key};
use flute_store::Status;

/// What is remembered of the objects of which all facts came. Their lines were put aside.
#[derive(Drop)]
pub struct ClosedObjects {
    /// Whether all that are listed are whole, or, if those with a conflict are, none is.
    pub all_whole: bool,
    /// With a line for each session, the sums of the last one, which may have more objects.
    pub sums: Option<SessionSums>,
}

impl ClosedObjects {
    /// Takes the next object. If it is listed, its line is put aside, or, if it is the first of its
    /// session and a session has a line, that of the session before.
    ///
    /// # Errors
    ///
    /// If lines could not be put aside.
    pub fn add<A: Aside>(
        &mut self,
        style: Style,
        key: &Key,
        status: Status,
        conflicts: u64,
        lines: &mut A,
    ) -> Result<(), DeviceFault>
        requires { CanClose self.old.sums }
        ensures added { (known : Bool) (objects : List Told) (bytes : List ℕ) (t : Told)
            → t.key ≡ key.now → t.status ≡ status → t.conflicts ≡ conflicts → HasNoStray style t
            → AreClosed style objects bytes self.old → Knows known (A.written lines.old) bytes
            → OnOk result (ArePut known style (objects ++ t ∷ [])
            (gap_lines style t.info t.gaps) (A.written lines.new) self.new) }
        ensures few { (n : ℕ) → AreSumsWithin n self.old.sums
            → OnOk result (AreSumsWithin (n + 1) self.new.sums) }
        ensures failures { A.failures lines.new
            ≡ A.failures lines.old + (if is_ok result then 0 else 1) }
    {
        if !style.tells(status, conflicts) {
            return Ok(());
        }
        self.all_whole &= style.is_right(status);
        if !style.summary {
            return write_words(lines, object_text(style, key, status, conflicts));
        }
        match &mut self.sums {
            Some(last) if last.session == key.session => {
                last.add(status, conflicts);
                Ok(())
            }
            _ => {
                end_session(style.form, &self.sums, lines)?;
                let mut next = SessionSums::new(key.session);
                next.add(status, conflicts);
                self.sums = Some(next);
                Ok(())
            }
        }
    }
}

/// Puts aside the line of the last session, if there is one.
///
/// # Errors
///
/// If it could not be put aside.
pub fn end_session<A: Aside>(
    form: Form,
    sums: &Option<SessionSums>,
    lines: &mut A,
) -> Result<(), DeviceFault>
    ensures line { OnOk result
        (Appends (A.written lines.old) (A.written lines.new) (last_line form sums.now)) }
    ensures failures { A.failures lines.new
        ≡ A.failures lines.old + (if is_ok result then 0 else 1) }
{
    match sums {
        Some(sums) => write_words(lines, sums.text(form)),
        None => Ok(()),
    }
}
