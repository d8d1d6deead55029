//! The words of the lines of JSON that say how much is held of an object (RFC 8259).
ghost use Rattle.std.specs.Prelude.{◌≡◌, ◌+◌, ◌≤◌, ◌++◌, length};
ghost use Rattle.flutejoin.specs.JsonGaps.{json_gap_line, json_object_line, json_reason};
ghost use Rattle.flutejoin.specs.JsonGaps.{json_session, json_status, json_unplaced};
ghost use Rattle.flutejoin.specs.Lines.{line};

use crate::lines::json_lines::{push_json_name, push_json_source};
use crate::lines::text::Text;
use flute_parts::{Key, SessionKey};
use flute_store::{Gap, Reason, Status};

/// Appends the session's sender, if it is not 0, and its TSI.
pub fn push_json_session(text: &mut Text, session: SessionKey)
    requires { length text.old + 100 ≤ 512 }
    ensures text { text.new ≡ text.old ++ json_session session }
    ensures len { length text.new ≤ length text.old + 96 }
{
    push_json_source(text, session.sender());
    text.push("\"tsi\":");
    text.push_number(session.tsi());
}

/// The words of an object's line: its name, how much is held of it, and how many of its symbols in
/// conflict are in no gap, if any is.
pub fn json_object_text(key: &Key, status: Status, unplaced: u64) -> Text
    ensures line { line result ≡ json_object_line key.now status unplaced }
    ensures len { length result ≤ 511 }
{
    let mut text = Text::new();
    text.push("{");
    push_json_name(&mut text, key);
    push_json_status(&mut text, status);
    push_json_unplaced(&mut text, unplaced);
    text.push("}");
    text
}

// Appends how many symbols in conflict are in no gap, if any is.
fn push_json_unplaced(text: &mut Text, unplaced: u64)
    requires { length text.old + 60 ≤ 512 }
    ensures text { text.new ≡ text.old ++ json_unplaced unplaced }
    ensures len { length text.new ≤ length text.old + 40 }
{
    if unplaced > 0 {
        text.push_named(",\"unplaced\":", unplaced);
    }
}

// Appends how much is held of an object, behind other members.
fn push_json_status(text: &mut Text, status: Status)
    requires { length text.old + 200 ≤ 512 }
    ensures text { text.new ≡ text.old ++ json_status status }
    ensures len { length text.new ≤ length text.old + 140 }
{
    match status {
        Status::NoInformation => text.push(",\"status\":\"no information\""),
        Status::ConflictingInformation => {
            text.push(",\"status\":\"conflicting information\"");
        }
        Status::Whole { length } => {
            text.push_named(",\"status\":\"whole\",\"length\":", length);
        }
        Status::Partial {
            missing,
            conflicting,
            misfit,
        } => {
            text.push_named(",\"status\":\"partial\",\"missing\":", missing);
            text.push_named(",\"conflicting\":", conflicting);
            text.push_named(",\"misfit\":", misfit);
        }
    }
}

/// The words of a gap's line.
pub fn json_gap_text(gap: &Gap) -> Text
    ensures line { line result ≡ json_gap_line gap.now }
    ensures len { length result ≤ 400 }
{
    let mut text = Text::new();
    text.push("{\"sbn\":");
    text.push_number(gap.sbn);
    text.push(",\"first\":");
    text.push_number(gap.first);
    text.push(",\"last\":");
    text.push_number(gap.last);
    text.push(",\"reason\":");
    text.push(json_reason_word(gap.reason));
    text.push("}");
    text
}

// A reason as a string of JSON.
fn json_reason_word(reason: Reason) -> &'static str
    ensures word { result.now ≡ json_reason reason }
    ensures len { length result.now ≤ 13 }
{
    match reason {
        Reason::Missing => "\"missing\"",
        Reason::Conflicting => "\"conflicting\"",
        Reason::Misfit => "\"misfit\"",
    }
}
