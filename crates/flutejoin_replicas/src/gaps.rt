//! The command `gaps` of a store: what is held of each object, and what is missing.
ghost use Rattle.std.specs.Prelude.{◌≡◌, ◌+◌, if◌then◌else◌, is_ok, IfErr, OnOk, flat_map};
ghost use Rattle.std.specs.Iterator.{YieldsFirst};
ghost use Rattle.std.specs.Io.KnownBytes.{Appends};
ghost use Rattle.flute_parts.specs.Devices.{Writes, AppendsPart};
ghost use Rattle.flute_store.specs.Held.{HoldsObject};
ghost use Rattle.flutejoin.specs.Lines.{status_line, gap_line};
ghost use Rattle.flutejoin.specs.Objects.{object_lines, OfObjects, FailsToWrite};
ghost use Rattle.flutejoin.specs.Packet.{write_failures};

use flute_parts::{DeviceFault, Key, Sink};
use flute_store::{Gap, Gaps, Shelf, Status};
use flutejoin::{CommandFault, gap_text, status_text, write_words};

/// Writes how much is held of each object, in the order of their keys: a line for the object, and
/// if some symbols are missing, in conflict or of a length that does not fit, a line for each
/// longest run of those.
///
/// # Errors
///
/// `CannotWrite` if the sink failed: it took a proper prefix of the lines.
pub fn gaps_to<W: Sink>(shelf: &Shelf, sink: &mut W) -> Result<(), CommandFault>
    ensures printed { OnOk result
        (OfObjects shelf.now (Appends (W.written sink.old) (W.written sink.new))) }
    ensures failed { IfErr result (FailsToWrite
        (OfObjects shelf.now (AppendsPart (W.written sink.old) (W.written sink.new)))) }
    ensures failures { W.failures sink.new ≡ W.failures sink.old + write_failures result }
{
    let mut keys = shelf.objects();
    while let Some(key) = keys.next() {
        if write_object(sink, shelf, &key).is_err() {
            return Err(CommandFault::CannotWrite);
        }
    }
    Ok(())
}

fn write_object<W: Sink>(sink: &mut W, shelf: &Shelf, key: &Key) -> Result<(), DeviceFault>
    requires held { HoldsObject shelf.now key.now }
    ensures lines { Writes (W.written sink.old) (W.written sink.new)
        (object_lines shelf.now key.now) result }
    ensures failures { W.failures sink.new ≡ W.failures sink.old
        + (if is_ok result then 0 else 1) }
{
    let status = shelf.status(key).unwrap();
    write_status(sink, key, status)?;
    match shelf.gaps(key) {
        Ok(gaps) => write_gaps(sink, gaps),
        Err(_) => Ok(()),
    }
}

fn write_status<W: Sink>(sink: &mut W, key: &Key, status: Status) -> Result<(), DeviceFault>
    ensures line { Writes (W.written sink.old) (W.written sink.new)
        (status_line key.now status) result }
    ensures failures { W.failures sink.new ≡ W.failures sink.old
        + (if is_ok result then 0 else 1) }
{
    write_words(sink, status_text(key, status))
}

fn write_gaps<W: Sink>(sink: &mut W, mut gaps: Gaps<'_>) -> Result<(), DeviceFault>
    ensures lines { Writes (W.written sink.old) (W.written sink.new)
        (flat_map gap_line gaps.entry.gaps) result }
    ensures failures { W.failures sink.new ≡ W.failures sink.old
        + (if is_ok result then 0 else 1) }
{
    while let Some(gap) = next_of(&mut gaps) {
        write_gap(sink, &gap)?;
    }
    Ok(())
}

// The next gap. Its ticks do not matter here.
fn next_of(gaps: &mut Gaps<'_>) -> Option<Gap>
    ensures { YieldsFirst (λ g. g.gaps) gaps.old result gaps.new }
{
    gaps.next()
}

fn write_gap<W: Sink>(sink: &mut W, gap: &Gap) -> Result<(), DeviceFault>
    ensures line { Writes (W.written sink.old) (W.written sink.new) (gap_line gap.now) result }
    ensures failures { W.failures sink.new ≡ W.failures sink.old
        + (if is_ok result then 0 else 1) }
{
    write_words(sink, gap_text(gap))
}
