//! The command `extract --all`: the objects that are whole, each as a file, written as their
//! journal is read.
ghost use Rattle.std.specs.Prelude.{◌≡◌, ◌+◌, IfOk, IfErr, IfSome};
ghost use Rattle.flute_output.specs.NewFolders.{LeadsTo, FolderStays, IsReady};
ghost use Rattle.flutejoin.specs.ExtractAll.{ExtractsAll, ExtractAllFails};
ghost use Rattle.flutejoin.specs.Limits.{at_most};
ghost use Rattle.flutejoin.specs.Packet.{write_failures};
ghost use Rattle.flutejoin.specs.Show.{FailsToRead};

use crate::command_fault::CommandFault;
use crate::extract::object_files::ObjectFiles;
use crate::picks::Picks;
use crate::walk::walk_objects;
use flute_output::NewFolder;
use flute_parts::{Sink, Source};
use std::alloc::Global;

/// Writes each object that the picked entries of a journal, of at most 16,777,216 entries, make
/// whole as a file of the folder, and returns how many; and for each object of these entries, in
/// the order of their keys, a line that says how much of it is held. Files and lines are written as
/// the journal is read, and one entry is held.
///
/// # Errors
///
/// The first that is met: `Input` with the fault of the journal, as input 1; `Full` if it has more
/// than `SESSIONS` sessions, `OBJECTS` objects of one or `SYMBOLS` symbols of one; `CannotWrite` if
/// the folder or the lines failed. The lines of the objects before it were written then.
pub fn extract_all_to<
    const SESSIONS: u32,
    const OBJECTS: u32,
    const SYMBOLS: u32,
    R: Source,
    P: Picks,
    D: NewFolder,
    W: Sink,
>(
    alloc: Global,
    source: &mut R,
    picks: &P,
    folder: &mut D,
    lines: &mut W,
) -> Result<u64, CommandFault>
    requires { IfSome (D.places folder.old) IsReady }
    ensures extracted { IfOk result (ExtractsAll (at_most SESSIONS OBJECTS SYMBOLS)
        (R.unread source.old) (R.unread source.new)
        (P.picks picks.now) (D.places folder.old) (D.places folder.new)
        (W.written lines.old) (W.written lines.new)) }
    ensures failed { IfErr result
        (ExtractAllFails (at_most SESSIONS OBJECTS SYMBOLS)
        (R.unread source.old) (R.unread source.new)) }
    ensures stays { LeadsTo FolderStays (D.places folder.old) (D.places folder.new) }
    ensures read_failures { FailsToRead (R.failures source.old) (R.failures source.new) result }
    ensures failures { D.failures folder.new + W.failures lines.new
        ≡ D.failures folder.old + W.failures lines.old + write_failures result }
{
    let mut files = ObjectFiles {
        folder,
        lines,
        written: 0,
        left: None,
    };
    walk_objects::<SESSIONS, OBJECTS, SYMBOLS, _, _, _>(alloc, source, picks, &mut files)?;
    Ok(files.written)
}
