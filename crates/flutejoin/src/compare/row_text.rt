//! The words of the line that says how two journals differ in an object.
ghost use Rattle.std.specs.Prelude.{◌≡◌, ◌≤◌, ◌+◌, ◌++◌, length};
ghost use Rattle.flutejoin.specs.CompareLines.{json_side, row_line, side_words};
ghost use Rattle.flutejoin.specs.CompareSums.{json_sides, sides_words};
ghost use Rattle.flutejoin.specs.Lines.{line};
ghost use Rattle.flutejoin.specs.declared.lines.form.Form.TheVariants.{Plain, Json};

use crate::lines::fact_lines::push_key;
use crate::lines::form::Form;
use crate::lines::json_lines::push_json_name;
use crate::lines::text::Text;
use flute_streams::{Row, Side, Sides};

/// The words of an object's line: its name, how many symbols of it are the same, differ, or are of
/// one journal alone, and which has its information.
pub fn row_text(form: Form, row: &Row) -> Text
    ensures line { line result ≡ row_line form row.now }
    ensures len { length result ≤ 511 }
{
    match form {
        Form::Plain => plain_row_text(row),
        Form::Json => json_row_text(row),
    }
}

fn json_row_text(row: &Row) -> Text
    ensures line { line result ≡ row_line Json row.now }
    ensures len { length result ≤ 511 }
{
    let mut text = Text::new();
    text.push("{");
    push_json_name(&mut text, &row.key);
    text.push(",");
    push_json_sides(&mut text, &row.symbols);
    text.push(",\"information\":");
    text.push(json_side_word(row.information));
    text.push("}");
    text
}

// The word of `side_word`, as a string of JSON.
fn json_side_word(side: Option<Side>) -> &'static str
    ensures word { result.now ≡ json_side side }
    ensures len { length result.now ≤ 8 }
{
    match side {
        None => "\"none\"",
        Some(Side::Same) => "\"same\"",
        Some(Side::Differ) => "\"differ\"",
        Some(Side::First) => "\"first\"",
        Some(Side::Second) => "\"second\"",
    }
}

fn plain_row_text(row: &Row) -> Text
    ensures line { line result ≡ row_line Plain row.now }
    ensures len { length result ≤ 511 }
{
    let mut text = Text::new();
    push_key(&mut text, &row.key);
    push_sides(&mut text, &row.symbols);
    text.push(" information ");
    text.push(side_word(row.information));
    text
}

// Which journal has the information of an object.
fn side_word(side: Option<Side>) -> &'static str
    ensures word { result.now ≡ side_words side }
    ensures len { length result.now ≤ 6 }
{
    match side {
        None => "none",
        Some(Side::Same) => "same",
        Some(Side::Differ) => "differ",
        Some(Side::First) => "first",
        Some(Side::Second) => "second",
    }
}

/// Appends how many are the same, differ, or are of one journal alone.
pub fn push_sides(text: &mut Text, sides: &Sides)
    requires { length text.old + 160 ≤ 512 }
    ensures text { text.new ≡ text.old ++ sides_words sides.now }
    ensures len { length text.new ≤ length text.old + 109 }
{
    text.push_named(" same ", sides.same);
    text.push_named(" differ ", sides.differ);
    text.push_named(" first ", sides.first);
    text.push_named(" second ", sides.second);
}

/// Appends the same as members of an object of JSON.
pub fn push_json_sides(text: &mut Text, sides: &Sides)
    requires { length text.old + 160 ≤ 512 }
    ensures text { text.new ≡ text.old ++ json_sides sides.now }
    ensures len { length text.new ≤ length text.old + 117 }
{
    text.push_named("\"same\":", sides.same);
    text.push_named(",\"differ\":", sides.differ);
    text.push_named(",\"first\":", sides.first);
    text.push_named(",\"second\":", sides.second);
}
