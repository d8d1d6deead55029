//! The command `show`: a line for each entry of a journal.
ghost use Rattle.std.specs.Prelude.{◌≡◌, ◌+◌, IfErr, OnOk};
ghost use Rattle.std.specs.Io.KnownBytes.{Appends};
ghost use Rattle.flute_parts.specs.Devices.{AppendsPart};
ghost use Rattle.flutejoin.specs.Objects.{FailsToWrite};
ghost use Rattle.flutejoin.specs.Show.{FailsToRead, ShowsAll, ShowFails, number_line};
ghost use Rattle.flutejoin.specs.Packet.{write_failures};

pub(crate) mod entry_line;

use crate::command_fault::{CommandFault, at_input};
use crate::limits::MAX_ENTRIES;
use crate::lines::form::Form;
use crate::lines::report_lines::{count_to, json_count_to};
use crate::lines::show_style::ShowStyle;
use crate::picks::Picks;
use crate::show::entry_line::write_entry;
use flute_journal::{HeldEntry, JournalReader};
use flute_parts::{Sink, Source};
use std::alloc::Global;

/// Writes what is picked of the journal that the source gives: a line in this style for each
/// entry as it is read, and then the number of these entries. The journal may have at most
/// 16,777,216 entries.
///
/// # Errors
///
/// `Input` with the fault of the journal, or if the source failed or there was no memory for a
/// symbol: the lines of the picked entries that were read before it were written, and no more.
/// `CannotWrite` if the sink failed: it took a proper prefix of the lines of the picked entries
/// that were read, or of the whole journal's.
pub fn show_to<R: Source, P: Picks, W: Sink>(
    alloc: Global,
    source: &mut R,
    picks: &P,
    style: ShowStyle,
    sink: &mut W,
) -> Result<(), CommandFault>
    ensures printed { OnOk result (ShowsAll style (P.picks picks.now)
        (R.unread source.old) (W.written sink.old) (W.written sink.new)) }
    ensures failed { IfErr result (ShowFails style (P.picks picks.now) (R.unread source.old)
        (R.unread source.new) (W.written sink.old) (W.written sink.new)) }
    ensures read_failures { FailsToRead (R.failures source.old) (R.failures source.new) result }
    ensures failures { W.failures sink.new ≡ W.failures sink.old + write_failures result }
{
    let mut reader = JournalReader::new(source, MAX_ENTRIES);
    let mut count = 0;
    let mut held = HeldEntry::Nothing;
    loop {
        at_input(1, reader.next_into(alloc, &mut held))?;
        let Some(fact) = held.fact(reader.buffer()) else {
            break;
        };
        if picks.picks(&fact) {
            let Ok(()) = write_entry(style, &fact, sink) else {
                reader.let_go(alloc, &mut held);
                return Err(CommandFault::CannotWrite);
            };
            count += 1;
        }
    }
    write_number(style.form, count, sink)
}

// The last line: how many entries.
fn write_number<W: Sink>(form: Form, count: u64, sink: &mut W) -> Result<(), CommandFault>
    ensures printed { OnOk result
        (Appends (W.written sink.old) (W.written sink.new) (number_line form count)) }
    ensures failed { IfErr result (FailsToWrite
        (AppendsPart (W.written sink.old) (W.written sink.new) (number_line form count))) }
    ensures failures { W.failures sink.new ≡ W.failures sink.old + write_failures result }
{
    match form {
        Form::Plain => count_to("entries", count, sink),
        Form::Json => json_count_to("entries", count, sink),
    }
}
