//! The command `forget --list`: objects that are taken out of a journal.
ghost use Rattle.std.specs.Prelude.{◌≡◌, ◌+◌, OnOk, IfOk, IfErr};
ghost use Rattle.flute_journal.specs.declared.fault.ReadFault.TheVariants.{Read};
ghost use Rattle.flute_streams.specs.StreamMerges.{AppendsNoJournal};
ghost use Rattle.flutejoin.specs.Forget.{ForgetListFails, ForgetsListed};
ghost use Rattle.flutejoin.specs.Packet.{write_failures};
ghost use Rattle.flutejoin.specs.declared.command_fault.CommandFault.TheVariants.{Input};

use crate::command_fault::CommandFault;
use crate::forget::{ForgetCounts, ForgetInput, forget_to};
use crate::lines::key_list::read_keys;
use flute_parts::{Sink, Source};
use std::alloc::Global;

/// Writes the journal of the entries of a journal, of at most 16,777,216, that are not selected or
/// whose objects are not in the list, and returns how many are both and how many are not. Each line
/// of the list begins with the name of an object, as `gaps` prints it; lines that are empty, or
/// begin with `#`, `gap ` or `bytes `, name none.
///
/// First the list is read, and the names in it are held. Then the journal is read, of which one
/// entry is held.
///
/// # Errors
///
/// The first that is met: `ListLine` with the number, from 1, of the first line that names no
/// object, or has no line feed within 512 bytes; `OutOfMemory` if there is none for the names;
/// `Input` with `Read` as input 2 if the source of the list failed; and then those of
/// [`forget_to`]. What was written is then no journal.
pub fn forget_list_to<R: Source, W: Sink>(
    alloc: Global,
    list: &mut R,
    input: &mut ForgetInput<R>,
    sink: &mut W,
) -> Result<ForgetCounts, CommandFault>
    ensures forgot { IfOk result (λ counts. ForgetsListed input.old.choice.selection
        (R.unread list.old) (R.unread input.old.stream.source) counts
        (W.written sink.old) (W.written sink.new)) }
    ensures short { IfErr result
        (λ _. AppendsNoJournal (W.written sink.old) (W.written sink.new)) }
    ensures failed { IfErr result
        (ForgetListFails (R.unread list.old) (R.unread input.old.stream.source)) }
    ensures none_failed { OnOk result
        ((R.failures input.new.stream.source ≡ R.failures input.old.stream.source)
        × (R.failures list.new ≡ R.failures list.old)) }
    ensures journal_failed { IfErr result (λ fault. fault ≡ Input 1 Read
        → R.failures input.new.stream.source ≡ R.failures input.old.stream.source + 1) }
    ensures list_failed { IfErr result (λ fault. fault ≡ Input 2 Read
        → R.failures list.new ≡ R.failures list.old + 1) }
    ensures failures { W.failures sink.new ≡ W.failures sink.old + write_failures result }
{
    input.choice.listed = Some(read_keys(alloc, list)?);
    forget_to(alloc, input, sink)
}
