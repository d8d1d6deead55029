//! The command `gaps`: how much is held of each object of a journal, listed as it is read.
ghost use Rattle.std.specs.Prelude.{◌≡◌, ◌≢◌, ◌+◌, ◌⊎◌, [], Some, IfErr, IfOk, OnOk};
ghost use Rattle.std.specs.Io.KnownBytes.{Appends, IsAtEnd};
ghost use Rattle.flute_parts.specs.Devices.{AppendsPart};
ghost use Rattle.flutejoin.specs.declared.command_fault.CommandFault.TheVariants.{CannotWrite};
ghost use Rattle.flutejoin.specs.Gaps.{ListsJournal, GapsFail};
ghost use Rattle.flutejoin.specs.Limits.{at_most};
ghost use Rattle.flutejoin.specs.Styles.{are_whole, printed};
ghost use Rattle.flutejoin.specs.Show.{FailsToRead};
ghost use Rattle.flutejoin.specs.Packet.{write_failures};

pub(crate) mod byte_range;
pub(crate) mod closed_objects;
pub(crate) mod gap_lines;
pub(crate) mod held_lines;
pub(crate) mod json_texts;
pub(crate) mod open_ranges;
pub(crate) mod session_sums;

use crate::aside::Aside;
use crate::command_fault::CommandFault;
use crate::gaps::closed_objects::ClosedObjects;
use crate::gaps::gap_lines::GapLines;
use crate::gaps::open_ranges::OpenRanges;
use crate::lines::style::Style;
use crate::picks::Picks;
use crate::walk::walk_objects;
use flute_parts::{Sink, Source};
use std::alloc::Global;

/// Writes how much the picked entries of the journal that the source gives, of at most
/// 16,777,216 entries, hold of each of their objects, in the order of the keys: a line for the
/// object, and if some symbols are missing, in conflict or of a length that does not fit, a line
/// for each longest run of those; or what the style has in place of that, whose `check` changes
/// nothing here. Returns whether all objects that are listed are whole.
/// One entry is held. The lines are put aside as `lines`, and those of the gaps of one object as
/// `gap_lines`, both of which are empty at first; they are written once the whole journal was read.
///
/// # Errors
///
/// The first that is met: `Input` with the fault of the journal, as input 1, or if the source
/// failed or there was no memory for a symbol; `Full` if it has more than `SESSIONS`
/// sessions, `OBJECTS` objects of one or `SYMBOLS` symbols of one; `CannotWrite` if lines could not
/// be put aside. Nothing was written then. Last,
/// `CannotWrite` if the lines could not be read back or the sink failed: it took a proper prefix
/// of the lines.
pub fn gaps_from<
    const SESSIONS: u32,
    const OBJECTS: u32,
    const SYMBOLS: u32,
    R: Source,
    P: Picks,
    A: Aside,
    W: Sink,
>(
    alloc: Global,
    source: &mut R,
    picks: &P,
    style: Style,
    lines: &mut A,
    gap_lines: &mut A,
    sink: &mut W,
) -> Result<bool, CommandFault>
    ensures printed { A.written lines.old ≡ Some [] → A.written gap_lines.old ≡ Some []
        → IfOk result (λ all_whole. ListsJournal (at_most SESSIONS OBJECTS SYMBOLS)
        (P.picks picks.now) (R.unread source.old)
        (λ objects. Appends (W.written sink.old) (W.written sink.new) (printed style objects)
        × (all_whole ≡ are_whole style objects))) }
    ensures end { OnOk result (IsAtEnd (R.unread source.new)) }
    ensures failed { IfErr result (GapsFail (at_most SESSIONS OBJECTS SYMBOLS)
        (R.unread source.old) (R.unread source.new)) }
    ensures part { A.written lines.old ≡ Some [] → A.written gap_lines.old ≡ Some []
        → IfErr result (λ fault. fault ≡ CannotWrite → (sink.new ≡ sink.old)
        ⊎ ListsJournal (at_most SESSIONS OBJECTS SYMBOLS) (P.picks picks.now)
        (R.unread source.old)
        (λ objects. AppendsPart (W.written sink.old) (W.written sink.new)
        (printed style objects))) }
    ensures kept { IfErr result (λ fault. fault ≢ CannotWrite → sink.new ≡ sink.old) }
    ensures read_failures { FailsToRead (R.failures source.old) (R.failures source.new) result }
    ensures failures { A.failures lines.new + A.failures gap_lines.new + W.failures sink.new
        ≡ A.failures lines.old + A.failures gap_lines.old + W.failures sink.old
        + write_failures result }
{
    let mut listed = GapLines {
        style,
        closed: ClosedObjects {
            all_whole: true,
            sums: None,
        },
        ranges: OpenRanges::new(),
        lines,
        gap_lines,
    };
    walk_objects::<SESSIONS, OBJECTS, SYMBOLS, _, _, _>(alloc, source, picks, &mut listed)?;
    Ok(listed.finish(sink)?)
}
