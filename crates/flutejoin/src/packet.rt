//! The command `packet`: the four lines of a datagram.
ghost use Rattle.std.specs.Prelude.{◌≡◌, ◌+◌, ◌≤◌, IfErr, OnOk};
ghost use Rattle.std.specs.Prelude.{if◌then◌else◌, is_ok, length};
ghost use Rattle.std.specs.Io.KnownBytes.{Appends};
ghost use Rattle.flute_parts.specs.Devices.{Writes};
ghost use Rattle.flutejoin.specs.Json.{json_packet_lines};
ghost use Rattle.flutejoin.specs.Pieces.{json_packet_head, packet_head, payload};
ghost use Rattle.flutejoin.specs.Packet.{HasLines, FailsWith, packet_lines_in, write_failures};

use crate::command_fault::CommandFault;
use crate::lines::fact_lines::{push_numbers, push_object, push_symbol};
use crate::lines::form::Form;
use crate::lines::hex_digits::write_hex_line;
use crate::lines::json_lines::{push_json_information, push_json_object, push_json_symbol};
use crate::lines::report_lines::write_words;
use crate::lines::text::Text;
use flute_parts::{DeviceFault, Sender, Sink};
use flute_wire::{Packet, read};
use hex::FromHexError;
use std::alloc::Global;

/// Writes what the datagram says that `text` has in hexadecimal, in this form: a line each for its
/// session, its object, its information and its symbol.
///
/// # Errors
///
/// `BadHex` if `text` is not an even number of hexadecimal digits, `Refused` if the datagram
/// is refused, and `OutOfMemory`: nothing was written then. `CannotWrite` if the sink failed: it
/// took a proper prefix of the lines.
pub fn packet_to<W: Sink>(
    alloc: Global,
    text: &str,
    form: Form,
    sink: &mut W,
) -> Result<(), CommandFault>
    ensures printed { OnOk result
        (HasLines text.now form (Appends (W.written sink.old) (W.written sink.new))) }
    ensures failed { IfErr result
        (FailsWith text.now form (W.written sink.old) (W.written sink.new)) }
    ensures failures { W.failures sink.new ≡ W.failures sink.old + write_failures result }
{
    let datagram = match hex::decode(alloc, text) {
        Ok(bytes) => bytes,
        Err(FromHexError::OutOfMemory) => return Err(CommandFault::OutOfMemory),
        Err(_) => return Err(CommandFault::BadHex),
    };
    let packet = match read(&datagram) {
        Ok(packet) => packet,
        Err(refusal) => return Err(CommandFault::Refused(refusal)),
    };
    match write_packet(&packet, form, sink) {
        Ok(()) => Ok(()),
        Err(_) => Err(CommandFault::CannotWrite),
    }
}

// Writes the lines of a packet.
fn write_packet<W: Sink>(packet: &Packet<'_>, form: Form, sink: &mut W) -> Result<(), DeviceFault>
    ensures lines { Writes (W.written sink.old) (W.written sink.new)
        (packet_lines_in form packet.now) result }
    ensures failures { W.failures sink.new
        ≡ W.failures sink.old + (if is_ok result then 0 else 1) }
{
    match form {
        Form::Plain => {
            let (head, payload) = pieces_of(packet);
            write_hex_line(sink, &head, payload, "\n")
        }
        Form::Json => write_json(packet, sink),
    }
}

// All that is written before the symbol's bytes, and these.
fn pieces_of<'a>(packet: &Packet<'a>) -> (Text, &'a [u8])
    ensures head { result.0 ≡ packet_head packet.now }
    ensures payload { result.1.now ≡ payload packet.now.symbol }
{
    // No line names the sender, which a datagram does not contain.
    let key = packet.key(Sender::new(0));
    let mut text = Text::new();
    text.push("session ");
    text.push_number(key.session.tsi());
    text.push("\n");
    push_object(&mut text, &key.object);
    text.push("\n");
    match packet.info() {
        Some(info) => push_numbers(&mut text, info.length(), info.symbol(), info.block()),
        None => text.push("info none"),
    }
    text.push("\n");
    match packet.symbol() {
        Some((id, bytes)) => {
            push_symbol(&mut text, id, bytes.len());
            (text, bytes)
        }
        None => {
            text.push("symbol none");
            (text, &[])
        }
    }
}

// Writes the lines of a packet in JSON.
fn write_json<W: Sink>(packet: &Packet<'_>, sink: &mut W) -> Result<(), DeviceFault>
    ensures lines { Writes (W.written sink.old) (W.written sink.new)
        (json_packet_lines packet.now) result }
    ensures failures { W.failures sink.new
        ≡ W.failures sink.old + (if is_ok result then 0 else 1) }
{
    let mut text = json_head(packet);
    text.push("{");
    match packet.symbol() {
        Some((id, bytes)) => {
            push_json_symbol(&mut text, id, bytes.len());
            text.push(",\"bytes\":\"");
            write_hex_line(sink, &text, bytes, "\"}}\n")
        }
        None => {
            text.push("\"symbol\":null}");
            write_words(sink, text)
        }
    }
}

// The lines before that of the symbol.
fn json_head(packet: &Packet<'_>) -> Text
    ensures head { result ≡ json_packet_head packet.now }
    ensures len { length result ≤ 320 }
{
    // No line names the sender, which a datagram does not contain.
    let key = packet.key(Sender::new(0));
    let mut text = Text::new();
    text.push("{\"tsi\":");
    text.push_number(key.session.tsi());
    text.push("}\n{");
    push_json_object(&mut text, &key.object);
    text.push("}\n{");
    match packet.info() {
        Some(info) => {
            push_json_information(&mut text, info.length(), info.symbol(), info.block());
        }
        None => text.push("\"info\":null"),
    }
    text.push("}\n");
    text
}
