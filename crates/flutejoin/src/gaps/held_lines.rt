//! The words of the lines that say how much is held of an object.
ghost use Rattle.std.specs.Prelude.{◌≡◌, ◌≤◌, length};
ghost use Rattle.flutejoin.specs.Lines.{line, status_line, gap_line};
ghost use Rattle.flutejoin.specs.Styles.{gap_line_in, object_line, object_line_in};
ghost use Rattle.flutejoin.specs.declared.lines.form.Form.TheVariants.{Plain};

use crate::gaps::json_texts::{json_gap_text, json_object_text};
use crate::lines::fact_lines::push_key;
use crate::lines::form::Form;
use crate::lines::style::Style;
use crate::lines::text::Text;
use flute_parts::Key;
use flute_store::{Gap, Reason, Status};

/// The words of an object's line: its name, and how much is held of it.
pub fn status_text(key: &Key, status: Status) -> Text
    ensures line { line result ≡ status_line key.now status }
    ensures len { length result ≤ 400 }
{
    let mut text = Text::new();
    push_key(&mut text, key);
    text.push(" ");
    match status {
        Status::NoInformation => text.push("no information"),
        Status::ConflictingInformation => text.push("conflicting information"),
        Status::Whole { length } => {
            text.push("whole ");
            text.push_number(length);
        }
        Status::Partial {
            missing,
            conflicting,
            misfit,
        } => {
            text.push("partial missing ");
            text.push_number(missing);
            text.push(" conflicting ");
            text.push_number(conflicting);
            text.push(" misfit ");
            text.push_number(misfit);
        }
    }
    text
}

/// The words of an object's line, with the number of its symbols in conflict that are in no gap, if
/// the style tells it.
pub fn object_text(style: Style, key: &Key, status: Status, conflicts: u64) -> Text
    ensures line { line result ≡ object_line style key.now status conflicts }
    ensures len { length result ≤ 511 }
{
    let unplaced = style.unplaced(status, conflicts);
    match style.form {
        Form::Plain => plain_object_text(key, status, unplaced),
        Form::Json => json_object_text(key, status, unplaced),
    }
}

// The line of an object, in words.
#[inline(always)]
fn plain_object_text(key: &Key, status: Status, unplaced: u64) -> Text
    ensures line { line result ≡ object_line_in Plain key.now status unplaced }
    ensures len { length result ≤ 511 }
{
    let mut text = status_text(key, status);
    if unplaced > 0 {
        text.push(" unplaced conflicting ");
        text.push_number(unplaced);
    }
    text
}

/// The words of a gap's line, in this form.
pub fn gap_text_in(form: Form, gap: &Gap) -> Text
    ensures line { line result ≡ gap_line_in form gap.now }
    ensures len { length result ≤ 400 }
{
    match form {
        Form::Plain => gap_text(gap),
        Form::Json => json_gap_text(gap),
    }
}

/// The words of a gap's line.
pub fn gap_text(gap: &Gap) -> Text
    ensures line { line result ≡ gap_line gap.now }
    ensures len { length result ≤ 400 }
{
    let mut text = Text::new();
    text.push("gap ");
    text.push_number(gap.sbn);
    text.push("/");
    text.push_number(gap.first);
    text.push("-");
    text.push_number(gap.last);
    match gap.reason {
        Reason::Missing => text.push(" missing"),
        Reason::Conflicting => text.push(" conflicting"),
        Reason::Misfit => text.push(" misfit"),
    }
    text
}
