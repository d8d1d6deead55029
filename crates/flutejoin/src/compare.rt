//! The command `compare`: how two journals differ, object by object.
ghost use Rattle.std.specs.Prelude.{◌≡◌, ◌≢◌, ◌+◌, ◌⊎◌, [], Some, IfErr, IfOk};
ghost use Rattle.std.specs.Io.KnownBytes.{Appends};
ghost use Rattle.flute_parts.specs.Devices.{AppendsPart};
ghost use Rattle.flutejoin.specs.Compare.{ComparesJournals};
ghost use Rattle.flutejoin.specs.CompareLines.{are_same, compared};
ghost use Rattle.flutejoin.specs.Merge.{MergeFails, FirstInputFails, SecondInputFails};
ghost use Rattle.flutejoin.specs.Packet.{write_failures};
ghost use Rattle.flutejoin.specs.declared.command_fault.CommandFault.TheVariants.{CannotWrite};
ghost use Rattle.flutejoin.specs.declared.limits.TheConstants.{MAX_ENTRIES};

pub(crate) mod compare_lines;
pub(crate) mod compare_sums;
pub(crate) mod row_text;

use crate::aside::Aside;
use crate::command_fault::{CommandFault, load_fault};
use crate::compare::compare_lines::CompareLines;
use crate::limits::MAX_ENTRIES;
use crate::lines::compare_style::CompareStyle;
use flute_parts::{Sink, Source};
use flute_streams::{Chosen, OwnedJournalStream, Selection, StreamsFault, compare_to};
use std::alloc::Global;

/// A journal, of which what is selected is compared with another.
pub type CompareInput<R> = Chosen<OwnedJournalStream<R>, Selection>;

/// The journal that a source has left, of which this is compared. Nothing of it is read yet.
pub fn compare_input<R: Source>(source: R, selection: Selection) -> CompareInput<R>
    ensures source { result.stream.source ≡ source }
    ensures selection { result.choice ≡ selection }
{
    Chosen::new(OwnedJournalStream::new(source, MAX_ENTRIES), selection)
}

/// Writes how what is selected of two journals, of at most 16,777,216 entries each, differs: a line
/// for each object that either has, in the order of the keys, or what the style has in place of
/// that, whose `check` changes nothing here. Returns whether neither has anything that differs from
/// what the other has there. The journals are what the sources of the inputs have left; one entry
/// of each is held. The lines are put aside as `lines`, which is empty at first, and written once
/// both journals were read.
///
/// # Errors
///
/// The first that is met: `Input` with the number of the journal, 1 or 2, and its fault;
/// `CannotWrite` if lines could not be put aside. Nothing was written then. Last, `CannotWrite` if
/// the lines could not be read back or the sink failed: it took a proper prefix of the lines.
pub fn compare_from<Q: Source, R: Source, A: Aside, W: Sink>(
    alloc: Global,
    first: &mut CompareInput<Q>,
    second: &mut CompareInput<R>,
    style: CompareStyle,
    lines: &mut A,
    sink: &mut W,
) -> Result<bool, CommandFault>
    ensures printed { A.written lines.old ≡ Some [] → IfOk result (λ same.
        ComparesJournals first.old.choice second.old.choice
        (Q.unread first.old.stream.source) (R.unread second.old.stream.source)
        (λ rows. Appends (W.written sink.old) (W.written sink.new) (compared style rows)
        × (same ≡ are_same rows))) }
    ensures failed { IfErr result (MergeFails (Q.unread first.old.stream.source)
        (R.unread second.old.stream.source)) }
    ensures part { A.written lines.old ≡ Some [] → IfErr result (λ fault. fault ≡ CannotWrite
        → (sink.new ≡ sink.old)
        ⊎ ComparesJournals first.old.choice second.old.choice
        (Q.unread first.old.stream.source) (R.unread second.old.stream.source)
        (λ rows. AppendsPart (W.written sink.old) (W.written sink.new) (compared style rows))) }
    ensures kept { IfErr result (λ fault. fault ≢ CannotWrite → sink.new ≡ sink.old) }
    ensures first_failures { FirstInputFails (Q.failures first.old.stream.source)
        (Q.failures first.new.stream.source) result }
    ensures second_failures { SecondInputFails (R.failures second.old.stream.source)
        (R.failures second.new.stream.source) result }
    ensures failures { A.failures lines.new + W.failures sink.new
        ≡ A.failures lines.old + W.failures sink.old + write_failures result }
{
    first.stream.restart(MAX_ENTRIES);
    second.stream.restart(MAX_ENTRIES);
    let mut told = CompareLines {
        style,
        same: true,
        sums: None,
        lines,
    };
    match compare_to(alloc, first, second, &mut told) {
        Ok(()) => Ok(told.finish(sink)?),
        Err(StreamsFault::Input(fault)) => {
            let number = if fault.number == 0 { 1 } else { 2 };
            Err(load_fault(number, fault.fault))
        }
        Err(StreamsFault::Write) => Err(CommandFault::CannotWrite),
    }
}
