//! The line of an entry, in the style in which it is shown.
ghost use Rattle.std.specs.Prelude.{◌≡◌, ◌+◌, ◌≤◌, ◌++◌, if◌then◌else◌, is_ok, length};
ghost use Rattle.flute_parts.specs.Addresses.{fact_of};
ghost use Rattle.flute_parts.specs.Devices.{Writes};
ghost use Rattle.flutejoin.specs.Json.{braced, fact_members, json_sum};
ghost use Rattle.flutejoin.specs.Pieces.{fact_bytes, fact_head};
ghost use Rattle.flutejoin.specs.Show.{entry_line};
ghost use Rattle.flutejoin.specs.SymbolSums.{summed_words};

use crate::lines::fact_lines::{push_key, push_numbers, push_symbol, push_symbol_id};
use crate::lines::form::Form;
use crate::lines::hex_digits::write_hex_line;
use crate::lines::json_lines::{
    push_json_id, push_json_information, push_json_name, push_json_symbol,
};
use crate::lines::report_lines::write_words;
use crate::lines::show_style::ShowStyle;
use crate::lines::symbol_sum::push_sum;
use crate::lines::text::Text;
use flute_parts::{DeviceFault, FactRef, Sink};

/// Writes the line of an entry.
///
/// # Errors
///
/// `DeviceFault` if the sink failed: it then took a proper prefix of the line.
pub fn write_entry<W: Sink>(
    style: ShowStyle,
    fact: &FactRef<'_>,
    sink: &mut W,
) -> Result<(), DeviceFault>
    ensures line { Writes (W.written sink.old) (W.written sink.new)
        (entry_line style (fact_of fact.now)) result }
    ensures failures { W.failures sink.new
        ≡ W.failures sink.old + (if is_ok result then 0 else 1) }
{
    match style.form {
        Form::Plain if style.sums => write_words(sink, summed_text(fact)),
        Form::Plain => write_hex_line(sink, &head_of(fact), bytes_of(fact), "\n"),
        Form::Json => write_words(sink, json_text(fact, style)),
    }
}

// All of the line before a symbol's bytes.
fn head_of(fact: &FactRef<'_>) -> Text
    ensures head { result ≡ fact_head (fact_of fact.now) }
    ensures len { length result ≤ 330 }
{
    let mut text = Text::new();
    match fact {
        FactRef::Info { key, info } => {
            push_key(&mut text, key);
            text.push(" ");
            push_numbers(&mut text, info.length(), info.symbol(), info.block());
        }
        FactRef::InfoConflict { key } => {
            push_key(&mut text, key);
            text.push(" info conflict");
        }
        FactRef::Symbol { key, id, bytes } => {
            push_key(&mut text, key);
            text.push(" ");
            push_symbol(&mut text, *id, bytes.len());
        }
        FactRef::SymbolConflict { key, id } => {
            push_key(&mut text, key);
            text.push(" ");
            push_symbol_id(&mut text, *id);
            text.push(" conflict");
        }
    }
    text
}

// The bytes that a line ends with.
fn bytes_of<'a>(fact: &FactRef<'a>) -> &'a [u8]
    ensures { result.now ≡ fact_bytes (fact_of fact.now) }
{
    match fact {
        FactRef::Symbol { bytes, .. } => *bytes,
        _ => &[],
    }
}

// The words of its line with a symbol's sum in place of its bytes.
#[tactic(auto, unfolding(crate::specs::Pieces::fact_head))]
fn summed_text(fact: &FactRef<'_>) -> Text
    ensures words { result ≡ summed_words (fact_of fact.now) }
    ensures len { length result ≤ 511 }
{
    let mut text = head_of(fact);
    if let FactRef::Symbol { bytes, .. } = fact {
        text.push("sum ");
        push_sum(&mut text, bytes);
    }
    text
}

// The object of JSON that has what the line says, but for a symbol's bytes.
fn json_text(fact: &FactRef<'_>, style: ShowStyle) -> Text
    ensures members { result ≡ braced (fact_members style.sums (fact_of fact.now)) }
    ensures len { length result ≤ 511 }
{
    let mut text = Text::new();
    text.push("{");
    match fact {
        FactRef::Info { key, info } => {
            push_json_name(&mut text, key);
            text.push(",");
            push_json_information(&mut text, info.length(), info.symbol(), info.block());
        }
        FactRef::InfoConflict { key } => {
            push_json_name(&mut text, key);
            text.push(",\"info\":\"conflict\"");
        }
        FactRef::Symbol { key, id, bytes } => {
            push_json_name(&mut text, key);
            text.push(",");
            push_json_symbol(&mut text, *id, bytes.len());
            push_json_sum(&mut text, style, bytes);
            text.push("}");
        }
        FactRef::SymbolConflict { key, id } => {
            push_json_name(&mut text, key);
            text.push(",");
            push_json_id(&mut text, *id);
            text.push(",\"conflict\":true}");
        }
    }
    text.push("}");
    text
}

// Appends the sum of a symbol's bytes, if it is asked for.
fn push_json_sum(text: &mut Text, style: ShowStyle, bytes: &[u8])
    requires { length text.old + 30 ≤ 512 }
    ensures text { text.new ≡ text.old ++ json_sum style.sums bytes.now }
    ensures len { length text.new ≤ length text.old + 30 }
{
    if style.sums {
        text.push(",\"sum\":\"");
        push_sum(text, bytes);
        text.push("\"");
    }
}
