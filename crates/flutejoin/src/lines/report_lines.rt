//! Writes lines to a sink, one after another.
ghost use Rattle.std.specs.Prelude.{◌≡◌, ◌+◌, ◌≤◌, length, if◌then◌else◌, is_ok};
ghost use Rattle.std.specs.Prelude.{OnOk, IfErr};
ghost use Rattle.std.specs.Io.KnownBytes.{Appends};
ghost use Rattle.flute_parts.specs.Devices.{Writes, AppendsPart};
ghost use Rattle.flutejoin.specs.Json.{json_count_line};
ghost use Rattle.flutejoin.specs.Lines.{line, count_line};
ghost use Rattle.flutejoin.specs.Objects.{FailsToWrite};
ghost use Rattle.flutejoin.specs.Packet.{write_failures};

use crate::command_fault::CommandFault;
use crate::lines::text::Text;
use flute_parts::{DeviceFault, Sink};

/// Writes a line of some words, of at most 511 bytes.
///
/// # Errors
///
/// `DeviceFault` if the sink failed: it then took a proper prefix of the line.
pub fn write_words<W: Sink>(sink: &mut W, mut words: Text) -> Result<(), DeviceFault>
    requires { length words + 1 ≤ 512 }
    ensures line { Writes (W.written sink.old) (W.written sink.new) (line words) result }
    ensures failures { W.failures sink.new ≡ W.failures sink.old
        + (if is_ok result then 0 else 1) }
{
    words.push("\n");
    sink.write_all(words.as_slice())
}

/// Writes a line of a word of at most 100 bytes and a number: what a command reports of its work.
///
/// # Errors
///
/// `CannotWrite` if the sink failed: it took a proper prefix of the line.
pub fn count_to<W: Sink>(word: &str, count: u64, sink: &mut W) -> Result<(), CommandFault>
    requires { length word.now ≤ 100 }
    ensures printed { OnOk result
        (Appends (W.written sink.old) (W.written sink.new) (count_line word.now count)) }
    ensures failed { IfErr result (FailsToWrite
        (AppendsPart (W.written sink.old) (W.written sink.new) (count_line word.now count))) }
    ensures failures { W.failures sink.new ≡ W.failures sink.old + write_failures result }
{
    let mut text = Text::new();
    text.push(word);
    text.push(" ");
    text.push_number(count);
    match write_words(sink, text) {
        Ok(()) => Ok(()),
        Err(_) => Err(CommandFault::CannotWrite),
    }
}

/// Writes a line of JSON: a word of at most 100 bytes as the name of a number.
///
/// # Errors
///
/// `CannotWrite` if the sink failed: it took a proper prefix of the line.
pub fn json_count_to<W: Sink>(word: &str, count: u64, sink: &mut W) -> Result<(), CommandFault>
    requires { length word.now ≤ 100 }
    ensures printed { OnOk result
        (Appends (W.written sink.old) (W.written sink.new) (json_count_line word.now count)) }
    ensures failed { IfErr result (FailsToWrite
        (AppendsPart (W.written sink.old) (W.written sink.new) (json_count_line word.now count))) }
    ensures failures { W.failures sink.new ≡ W.failures sink.old + write_failures result }
{
    let mut text = Text::new();
    text.push("{\"");
    text.push(word);
    text.push("\":");
    text.push_number(count);
    text.push("}");
    match write_words(sink, text) {
        Ok(()) => Ok(()),
        Err(_) => Err(CommandFault::CannotWrite),
    }
}
