//! `extract_all_into`: the command `extract --all`, over an open journal and a new folder.
ghost use Rattle.std.specs.Prelude.{◌≡◌, ◌+◌, ◌≤◌, ◌<◌, ◌⊎◌, ℕ, List, Option};
ghost use Rattle.std.specs.Prelude.{IfOk, IfErr, IfSome, OnOk, OnErr, Err, codes};
ghost use Rattle.std.specs.Io.KnownBytes.{Appends};
ghost use Rattle.flute_output.specs.NewFolders.{Places, LeadsTo, FolderStays, IsReady};
ghost use Rattle.flute_output.specs.NewFolders.{NoneBeside};
ghost use Rattle.flutejoin.specs.declared.command_fault.CommandFault.TheVariants.{CannotWrite};
ghost use Rattle.flutejoin.specs.ExtractAll.{ExtractsAll, ExtractAllFails};
ghost use Rattle.flutejoin.specs.Lines.{count_line};
ghost use Rattle.flutejoin_commands.specs.Folders.{LeavesFolder, FolderFails, IsOneFolderAlways};
ghost use Rattle.flutejoin_commands.specs.Folders.{finish_fault};
ghost use Rattle.flutejoin_commands.specs.Works.{most_of};

use crate::outlet::Outlet;
use flute_output::{FinishFault, NewFolder, finish_folder};
use flute_parts::Source;
use flutejoin::{
    ANY_OBJECTS, ANY_SESSIONS, ANY_SYMBOLS, CommandFault, MAX_OBJECTS, MAX_SESSIONS, MAX_SYMBOLS,
    Picks, count_to, extract_all_to,
};
use flutejoin_line::Limit;
use std::alloc::Global;

/// Leaves as OUT a new folder with a file for each object that the picked entries of a journal make
/// whole, and no other file; and in the report a line for each object of these entries, and the
/// number of files.
///
/// # Errors
///
/// `CannotCreate` if the folder could not be made; then those of [`extract_all_to`]; `CannotWrite`
/// if the report or the disk failed, or the folder could not be put in its place: there is no OUT
/// then. `NotOnDisk` if OUT is there, but the disk did not confirm that it has this name. Last,
/// `CannotWrite` if the report failed to take the number: OUT is there then.
pub fn extract_all_into<D: NewFolder, R: Source, C: Picks, P: Outlet>(
    alloc: Global,
    limit: Limit,
    folder: &mut D,
    source: &mut R,
    picks: &C,
    report: &mut P,
) -> Result<(), CommandFault>
    ensures extracted { OnOk result (LeavesFolder (most_of limit) (R.unread source.old)
        (C.picks picks.now) (D.places folder.old) (D.places folder.new)
        (P.written report.old) (P.written report.new)) }
    ensures handed_on { OnOk result (P.handed_on report.new ≡ P.written report.new) }
    ensures failed { IfErr result (FolderFails (most_of limit)
        (R.unread source.old) (R.unread source.new)
        (C.picks picks.now) (D.places folder.old) (D.places folder.new)) }
    ensures any_moment { IsOneFolderAlways (D.places folder.old) (D.places folder.new) }

    // A device is at fault only if one failed; and only then something may be left beside OUT.
    ensures quiet { OnOk result (D.failures folder.new + P.failures report.new
        ≡ D.failures folder.old + P.failures report.old) }
    ensures cause { IfErr result (λ fault. fault ≡ CannotWrite
        → D.failures folder.old + P.failures report.old
        < D.failures folder.new + P.failures report.new) }
    ensures gone { OnErr result (D.failures folder.new + P.failures report.new
        ≡ D.failures folder.old + P.failures report.old
        → LeadsTo NoneBeside (D.places folder.old) (D.places folder.new)) }
{
    let Ok(()) = folder.create() else {
        return Err(CommandFault::CannotCreate);
    };
    let filled = fill(alloc, limit, folder, source, picks, report);
    match finish_folder(folder, filled) {
        Ok(count) => tell(report, count),
        Err(fault) => Err(fault_of(fault)),
    }
}

// The fault of a command that did not finish its folder.
fn fault_of(fault: FinishFault<CommandFault>) -> CommandFault
    ensures { result ≡ finish_fault fault }
{
    match fault {
        FinishFault::Work(fault) => fault,
        FinishFault::Write => CommandFault::CannotWrite,
        FinishFault::NotOnDisk => CommandFault::NotOnDisk,
    }
}

// Fills the folder, and hands the lines on: those of the objects before a fault, too.
fn fill<D: NewFolder, R: Source, C: Picks, P: Outlet>(
    alloc: Global,
    limit: Limit,
    folder: &mut D,
    source: &mut R,
    picks: &C,
    report: &mut P,
) -> Result<u64, CommandFault>
    requires { IfSome (D.places folder.old) IsReady }
    ensures filled { IfOk result (ExtractsAll (most_of limit)
        (R.unread source.old) (R.unread source.new)
        (C.picks picks.now) (D.places folder.old) (D.places folder.new)
        (P.written report.old) (P.written report.new)) }
    ensures failed { IfErr result (λ fault.
        ExtractAllFails (most_of limit) (R.unread source.old) (R.unread source.new) fault
        ⊎ (fault ≡ CannotWrite)) }
    ensures stays { LeadsTo FolderStays (D.places folder.old) (D.places folder.new) }
    ensures quiet { OnOk result (D.failures folder.new + P.failures report.new
        ≡ D.failures folder.old + P.failures report.old) }
    ensures cause { IfErr result (λ fault. fault ≡ CannotWrite
        → D.failures folder.old + P.failures report.old
        < D.failures folder.new + P.failures report.new) }
    ensures counted { D.failures folder.old + P.failures report.old
        ≤ D.failures folder.new + P.failures report.new }
{
    let extracted = match limit {
        Limit::AnySize => extract_all_to::<ANY_SESSIONS, ANY_OBJECTS, ANY_SYMBOLS, _, _, _, _>(
            alloc, source, picks, folder, report,
        ),
        Limit::Shelf => extract_all_to::<MAX_SESSIONS, MAX_OBJECTS, MAX_SYMBOLS, _, _, _, _>(
            alloc, source, picks, folder, report,
        ),
    };
    let flushed = report.flush();
    let count = extracted?;
    match flushed {
        Ok(()) => Ok(count),
        Err(_) => Err(CommandFault::CannotWrite),
    }
}

// Reports how many files were written.
fn tell<P: Outlet>(report: &mut P, count: u64) -> Result<(), CommandFault>
    ensures told { OnOk result (Appends (P.written report.old) (P.written report.new)
        (count_line (codes "written") count)) }
    ensures handed_on { OnOk result (P.handed_on report.new ≡ P.written report.new) }
    ensures failed { IfErr result (λ fault. fault ≡ CannotWrite) }
    ensures quiet { OnOk result (P.failures report.new ≡ P.failures report.old) }
    ensures cause { OnErr result (P.failures report.old < P.failures report.new) }
{
    count_to("written", count, report)?;
    match report.flush() {
        Ok(()) => Ok(()),
        Err(_) => Err(CommandFault::CannotWrite),
    }
}
