//! Inputs in memory, joined into a store.
ghost use Rattle.std.specs.Prelude.{◌≡◌, ◌≤◌, length, map, IfOk, IfErr};
ghost use Rattle.flutejoin.specs.Joined.{everything};
ghost use Rattle.flutejoin.specs.Joining.{JoinsTo};
ghost use Rattle.flutejoin_replicas.specs.Memory.{Joins, in_memory, MemoryFails};

use crate::blob::Blob;
use crate::no_asides::NoAsides;
use flute_journal::laws::a_journal_is_its_content;
use flute_journal::{ReadFault, read_store};
use flute_parts::{MemorySink, MemorySource, Sender, Sink};
use flute_streams::{Objects, Scope};
use flutejoin::{
    CommandFault, JoinCounts, JoinInput, Joined, JoinedShelf, MAX_OBJECTS, MAX_SESSIONS,
    MAX_SYMBOLS, join_to,
};
use std::alloc::Global;

/// The facts of all the inputs, each a journal or a datagram file, as [`join_to`] joins them: into
/// a journal in memory, which is then read into a store. There may be up to 64, and none gives the
/// empty store.
///
/// # Errors
///
/// Those of [`join_to`], but `OutOfMemory` in place of a device's.
pub fn join_inputs(
    alloc: Global,
    sender: Sender,
    inputs: &[Blob],
) -> Result<JoinedShelf, CommandFault>
    requires { length inputs.now ≤ 64 }
    ensures joined { IfOk result (Joins (everything sender) inputs.now) }
    ensures failed { IfErr result (MemoryFails (everything sender) inputs.now) }
{
    // By this the proof knows that a journal that was written is read as its facts.
    a_journal_is_its_content();
    let mut journal = MemorySink::new(alloc);
    let counts = join_blobs(alloc, sender, inputs, &mut journal)?;
    let mut written = MemorySource::new(journal.as_slice());
    match read_store(alloc, &mut written, counts.entries) {
        Ok(store) => Ok(Joined {
            store,
            datagrams: counts.datagrams,
            refused: counts.refused,
        }),
        // reading a journal that was written fails only for lack of memory
        Err(_) => Err(CommandFault::OutOfMemory),
    }
}

// Writes the journal of the facts of all inputs.
fn join_blobs(
    alloc: Global,
    sender: Sender,
    inputs: &[Blob],
    sink: &mut MemorySink,
) -> Result<JoinCounts, CommandFault>
    requires { length inputs.now ≤ 64 }
    ensures joined { IfOk result (λ counts. JoinsTo (everything sender) inputs.now counts
        (⟦<MemorySink as Sink>⟧.written sink.old)
        (⟦<MemorySink as Sink>⟧.written sink.new)) }
    ensures failed { IfErr result (MemoryFails (everything sender) inputs.now) }
{
    let mut opened = Vec::new(alloc);
    for input in inputs {
        let Ok(input) = JoinInput::open(MemorySource::new(input.as_slice())) else {
            return Err(CommandFault::OutOfMemory);
        };
        if opened.push(input).is_err() {
            return Err(CommandFault::OutOfMemory);
        }
    }
    let joined = join_to::<MAX_SESSIONS, MAX_OBJECTS, MAX_SYMBOLS, _, _, _>(
        alloc,
        &mut NoAsides::new(),
        u64::MAX,
        sender,
        &Objects {
            scope: Scope::all(),
            without: None,
        },
        &mut opened,
        sink,
    );
    match joined {
        Ok(counts) => Ok(counts),
        Err(fault) => Err(in_memory(fault)),
    }
}

// Why inputs in memory were not joined: their devices fail only for lack of memory.
fn in_memory(fault: CommandFault) -> CommandFault
    ensures { result ≡ in_memory fault }
{
    match fault {
        CommandFault::CannotWrite => CommandFault::OutOfMemory,
        CommandFault::CannotPutAside => CommandFault::OutOfMemory,
        CommandFault::Input(_, ReadFault::Read) => CommandFault::OutOfMemory,
        fault => fault,
    }
}
