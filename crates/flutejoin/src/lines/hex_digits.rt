//! Bytes as hexadecimal digits, in a line that is written.
ghost use Rattle.std.specs.Prelude.{◌≡◌, ◌+◌, ◌*◌, ◌<◌, ◌++◌, ℕ, length, map, slice_index};
ghost use Rattle.std.specs.Prelude.{if◌then◌else◌, is_ok};
ghost use Rattle.hex.specs.Hex.{encode_lower, lower_digits};
ghost use Rattle.flute_parts.specs.Devices.{Writes};
ghost use Rattle.flutejoin.specs.Digits.{halves};

use crate::lines::text::Text;
use flute_parts::{DeviceFault, Sink};

/// How many bytes are put into digits at a time.
const PIECE: usize = 512;

/// Writes a line of some words, then of bytes as lower-case digits, two for each, and then of its
/// end. It takes no memory.
///
/// # Errors
///
/// `DeviceFault` if the sink failed: it then took a proper prefix of the line.
#[inline(never)]
pub fn write_hex_line<W: Sink>(
    sink: &mut W,
    words: &Text,
    bytes: &[u8],
    end: &str,
) -> Result<(), DeviceFault>
    ensures line { Writes (W.written sink.old) (W.written sink.new)
        (words.now ++ (encode_lower bytes.now ++ end.now)) result }
    ensures failures { W.failures sink.new
        ≡ W.failures sink.old + (if is_ok result then 0 else 1) }
{
    sink.write_all(words.as_slice())?;
    let mut digits = [0; 2 * PIECE];
    let mut rest = bytes;
    while !rest.is_empty() {
        let (piece, later) = rest.split_at(rest.len().min(PIECE));
        let room = &mut digits[..2 * piece.len()];
        put_digits(piece, room);
        sink.write_all(room)?;
        rest = later;
    }
    sink.write_all(end.as_bytes())
}

// Puts the digits of the bytes into the room, which has two places for each. Its two steps take
// several bytes in one instruction each, which a table of digits would not.
fn put_digits(bytes: &[u8], room: &mut [u8])
    requires { length room.old ≡ 2 * length bytes.now }
    ensures { room.new ≡ encode_lower bytes.now }
{
    put_halves(bytes, room);
    put_digits_of(room);
}

// Puts the two halves of each byte into the room, the high one first.
fn put_halves(bytes: &[u8], room: &mut [u8])
    requires { length room.old ≡ 2 * length bytes.now }
    ensures { room.new ≡ halves bytes.now }
{
    for i in 0..bytes.len() {
        let byte = bytes[i];
        room[2 * i] = byte / 16;
        room[2 * i + 1] = byte % 16;
    }
}

// Puts the digit of each half in its place.
fn put_digits_of(halves: &mut [u8])
    requires { (k : ℕ) → k < length halves.old → slice_index halves.old k < 16 }
    ensures { halves.new ≡ map (λ half. slice_index lower_digits half) halves.old }
{
    for i in 0..halves.len() {
        halves[i] = digit(halves[i]);
    }
}

// The digit of a number below 16.
#[inline(always)]
fn digit(number: u8) -> u8
    requires { number < 16 }
    ensures { result ≡ slice_index lower_digits number }
{
    if number < 10 {
        b'0' + number
    } else {
        b'a' + (number - 10)
    }
}
