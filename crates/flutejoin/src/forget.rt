//! The command `forget`: entries that are taken out of a journal.
ghost use Rattle.std.specs.Prelude.{◌≡◌, ◌+◌, IfOk, IfErr};
ghost use Rattle.flute_streams.specs.Selections.{all_but};
ghost use Rattle.flutejoin.specs.Forget.{Forgets, ForgetsPart, ForgetFails};
ghost use Rattle.flutejoin.specs.Packet.{write_failures};
ghost use Rattle.flutejoin.specs.Show.{FailsToRead};
ghost use Rattle.flutejoin.specs.declared.limits.TheConstants.{MAX_ENTRIES};

pub(crate) mod forget_list;

use crate::command_fault::{CommandFault, load_fault};
use crate::limits::MAX_ENTRIES;
use flute_parts::{Sink, Source};
use flute_streams::{AllBut, Chosen, OwnedJournalStream, Selection, StreamsFault, write_stream};
use std::alloc::Global;

/// A journal, of which what is selected is to be forgotten.
pub type ForgetInput<R> = Chosen<OwnedJournalStream<R>, AllBut>;

/// How many entries of a journal were forgotten, and how many are left.
#[derive(Clone, Copy, Drop)]
pub struct ForgetCounts {
    pub forgotten: u64,
    pub entries: u64,
}

/// The journal that a source has left, of which this is to be forgotten, of all objects. Nothing of
/// it is read yet.
pub fn forget_input<R: Source>(source: R, selection: Selection) -> ForgetInput<R>
    ensures source { result.stream.source ≡ source }
    ensures choice { result.choice ≡ all_but selection }
{
    let journal = OwnedJournalStream::new(source, MAX_ENTRIES);
    Chosen::new(
        journal,
        AllBut {
            selection,
            listed: None,
        },
    )
}

/// Writes the journal of the entries of a journal, of at most 16,777,216, that are not selected, or
/// not of a listed object, and returns how many are both and how many are not. The journal is what
/// the input's source has left. One entry is held. This is no join: what is forgotten comes back
/// with the next input of a join that has it.
///
/// # Errors
///
/// `Input` with the fault of the journal, as input 1; `CannotWrite` if the sink failed. What was
/// written is then no journal.
pub fn forget_to<R: Source, W: Sink>(
    alloc: Global,
    input: &mut ForgetInput<R>,
    sink: &mut W,
) -> Result<ForgetCounts, CommandFault>
    ensures forgot { IfOk result (λ counts. Forgets input.old.choice counts
        (R.unread input.old.stream.source) (W.written sink.old) (W.written sink.new)) }
    ensures short { IfErr result (λ _. ForgetsPart input.old.choice
        (R.unread input.old.stream.source) (W.written sink.old) (W.written sink.new)) }
    ensures failed { IfErr result (ForgetFails (R.unread input.old.stream.source)) }
    ensures read_failures { FailsToRead (R.failures input.old.stream.source)
        (R.failures input.new.stream.source) result }
    ensures failures { W.failures sink.new ≡ W.failures sink.old + write_failures result }
{
    input.others = 0;
    input.stream.restart(MAX_ENTRIES);
    match write_stream(alloc, input, sink) {
        Ok(entries) => Ok(ForgetCounts {
            forgotten: input.others,
            entries,
        }),
        Err(StreamsFault::Input(fault)) => Err(load_fault(1, fault.fault)),
        Err(StreamsFault::Write) => Err(CommandFault::CannotWrite),
    }
}
