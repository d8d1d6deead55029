//! The command `fill`: what of a journal another lacks, by what `gaps` prints of that.
ghost use Rattle.std.specs.Prelude.{◌≡◌, ◌+◌, IfOk, IfErr};
ghost use Rattle.flute_streams.specs.StreamMerges.{AppendsNoJournal};
ghost use Rattle.flutejoin.specs.Fill.{FillFails, WritesFill};
ghost use Rattle.flutejoin.specs.Merge.{FirstInputFails, SecondInputFails};
ghost use Rattle.flutejoin.specs.Packet.{write_failures};

pub(crate) mod asking;
pub(crate) mod filled;
pub(crate) mod gap_list;
pub(crate) mod listed_line;
pub(crate) mod reading_lines;

use crate::command_fault::{CommandFault, load_fault};
use crate::fill::asking::Asking;
use crate::fill::filled::Filled;
use crate::fill::gap_list::{GapList, GapListFault};
use crate::limits::MAX_ENTRIES;
use flute_journal::ReadFault;
use flute_parts::{Sink, Source};
use flute_streams::{OwnedJournalStream, StreamsFault, write_stream};
use std::alloc::Global;

/// A journal, of which what is asked for by lines of `gaps` is to be written.
pub type FillInput<A, B> = Filled<OwnedJournalStream<A>, B>;

/// The journal that a source has left, and the lines that another has left. Nothing of them is read
/// yet.
pub fn fill_input<A: Source, B: Source>(journal: A, lines: B, asking: Asking) -> FillInput<A, B>
    ensures journal { result.facts.source ≡ journal }
    ensures lines { result.list.source ≡ lines }
    ensures asking { result.asking ≡ asking }
{
    Filled::new(
        OwnedJournalStream::new(journal, MAX_ENTRIES),
        GapList::new(lines),
        asking,
    )
}

/// Writes the journal of those entries of a journal, of at most 16,777,216, that are asked for, and
/// returns their number. What is asked for is told by the lines that `gaps` prints, without
/// options, of the journal of whoever asks:
///
/// - of a `whole` object nothing;
/// - of a `partial` one the symbols of its lines of gaps that are `missing`;
/// - of one with `conflicting information` its symbols;
/// - of one with `no information`, and of one that no line names, all.
///
/// With `Asking::Only` just these: the symbols of gaps that are `missing`, and the information of
/// objects with `no information`. Both inputs are read to their ends, one after the other as far as
/// the order of their objects needs; one entry and one line of at most 512 bytes are held.
///
/// # Errors
///
/// `Input` with the fault of the journal, as input 1, or with `Read` as input 2 if the lines could
/// not be read; `BadLine` with the number, from 1, of the first line that `gaps` does not print
/// after those before it; `CannotWrite` if the sink failed. What was written is then no journal.
pub fn fill_to<A: Source, B: Source, W: Sink>(
    alloc: Global,
    input: &mut FillInput<A, B>,
    sink: &mut W,
) -> Result<u64, CommandFault>
    ensures written { IfOk result (λ n. WritesFill input.old.asking
        (A.unread input.old.facts.source) (B.unread input.old.list.source) n
        (W.written sink.old) (W.written sink.new)) }
    ensures short { IfErr result
        (λ _. AppendsNoJournal (W.written sink.old) (W.written sink.new)) }
    ensures failed { IfErr result (FillFails (A.unread input.old.facts.source)
        (B.unread input.old.list.source)) }
    ensures journal_failures { FirstInputFails (A.failures input.old.facts.source)
        (A.failures input.new.facts.source) result }
    ensures lines_failures { SecondInputFails (B.failures input.old.list.source)
        (B.failures input.new.list.source) result }
    ensures failures { W.failures sink.new ≡ W.failures sink.old + write_failures result }
{
    input.facts.restart(MAX_ENTRIES);
    input.list.restart();
    input.restart();
    match write_stream(alloc, input, sink) {
        Ok(entries) => Ok(entries),
        Err(StreamsFault::Input(fault)) => Err(match input.list_fault {
            None => load_fault(1, fault.fault),
            Some(GapListFault::Read) => CommandFault::Input(2, ReadFault::Read),
            Some(GapListFault::Line(number)) => CommandFault::BadLine(number),
        }),
        Err(StreamsFault::Write) => Err(CommandFault::CannotWrite),
    }
}
