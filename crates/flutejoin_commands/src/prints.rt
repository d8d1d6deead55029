//! The commands that leave no file at a name, from the names of their files to what they print.
ghost use Rattle.std.specs.Prelude.{◌≡◌, ◌⊎◌, ◌<◌, OnOk, IfErr};
ghost use Rattle.flutejoin.specs.declared.command_fault.CommandFault.TheVariants.{CannotWrite};
ghost use Rattle.flutejoin_commands.specs.Folders.{KeepsFolder};
ghost use Rattle.flutejoin_commands.specs.Printed.{CompareNamesFail, ComparesNames};
ghost use Rattle.flutejoin_commands.specs.Printed.{FolderOfNameFails, LeavesFolderOfName};
ghost use Rattle.flutejoin_commands.specs.Printed.{ListNameFails, ListsName, PacketFails};
ghost use Rattle.flutejoin_commands.specs.Printed.{PrintsPacket, ShowNameFails, ShowsName};
ghost use Rattle.flutejoin_commands.specs.Prints.{IfCompared, IfPrinted, IsHandedOn};
ghost use Rattle.flutejoin_commands.specs.Works.{most_of};
ghost use Rattle.flutejoin_line.specs.CommandLine.{list_of};

use crate::comparing::compare_on;
use crate::extracting_all::extract_all_into;
use crate::opening::open_two;
use crate::opening_listed::open_listed;
use crate::outlet::Outlet;
use crate::printing::{Listing, gaps_on, hand_on};
use crate::world::World;
use flute_streams::Selection;
use flutejoin::{
    Asides, CommandFault, CompareStyle, Form, Listed, Picked, ShowStyle, compare_input, packet_to,
    show_to,
};
use flutejoin_line::{Limit, ListedJournal};
use std::alloc::Global;

/// Prints what the datagram `hex` says, in this form, as [`packet_to`] writes it, and hands it on.
///
/// # Errors
///
/// Those of [`packet_to`]; or `CannotWrite` if all was written and not handed on.
pub fn packet<P: Outlet>(
    alloc: Global,
    hex: &str,
    form: Form,
    output: &mut P,
) -> Result<(), CommandFault>
    ensures printed { OnOk result
        (PrintsPacket hex.now form (P.written output.old) (P.written output.new)) }
    ensures handed_on { OnOk result (P.handed_on output.new ≡ P.written output.new) }
    ensures failed { IfErr result
        (PacketFails hex.now form (P.written output.old) (P.written output.new)) }
    ensures flushed { IsHandedOn (P.failures output.old) (P.failures output.new)
        (P.written output.new) (P.handed_on output.new) }
    ensures quiet { OnOk result (P.failures output.new ≡ P.failures output.old) }
    ensures cause { IfErr result (λ fault. fault ≡ CannotWrite
        → P.failures output.old < P.failures output.new) }
{
    let printed = packet_to(alloc, hex, form, output);
    hand_on(output, printed)
}

/// Prints what is selected of the entries of a journal, or of a list of its objects, both of these
/// names, in this style, as [`show_to`] writes it, and hands it on: after a fault of the journal
/// too.
///
/// # Errors
///
/// Those of [`open_listed`]; then those of [`show_to`]; or `CannotWrite` if all was written and not
/// handed on.
pub fn show<W: World, P: Outlet>(
    world: &mut W,
    alloc: Global,
    selection: &Selection,
    style: ShowStyle,
    inputs: ListedJournal<'_>,
    output: &mut P,
) -> Result<(), CommandFault>
    ensures shown { OnOk result (ShowsName (W.files world.old) inputs.entry.journal.now
        (list_of inputs.entry) style selection.now (P.written output.old) (P.written output.new)) }
    ensures handed_on { OnOk result (P.handed_on output.new ≡ P.written output.new) }
    ensures failed { IfErr result (ShowNameFails (W.files world.old) inputs.entry.journal.now
        (list_of inputs.entry) style selection.now (P.written output.old) (P.written output.new)) }
    ensures flushed { (P.written output.new ≡ P.written output.old)
        ⊎ IsHandedOn (P.failures output.old) (P.failures output.new)
        (P.written output.new) (P.handed_on output.new) }
    ensures quiet { OnOk result (P.failures output.new ≡ P.failures output.old) }
    ensures cause { IfErr result (λ fault. fault ≡ CannotWrite
        → P.failures output.old < P.failures output.new) }
    ensures same_files { W.files world.new ≡ W.files world.old }
    ensures same_folders { W.folders world.new ≡ W.folders world.old }
    ensures same_closed { W.closed world.new ≡ W.closed world.old }
{
    let (mut source, listed) = open_listed(world, alloc, inputs)?;
    let picks = Listed {
        listed,
        picks: *selection,
    };
    let shown = show_to(alloc, &mut source, &picks, style, output);
    hand_on(output, shown)
}

/// Prints what is missing of the selected objects of a journal, or of a list of them, both of these
/// names, in a style.
///
/// # Errors
///
/// Those of [`open_listed`], or `OutOfMemory`; then those of [`gaps_on`].
pub fn gaps<W: World, P: Outlet>(
    world: &mut W,
    alloc: Global,
    selection: &Selection,
    listing: Listing,
    inputs: ListedJournal<'_>,
    output: &mut P,
) -> Result<(), CommandFault>
    ensures listed { OnOk result (ListsName (W.files world.old) inputs.entry.journal.now
        (list_of inputs.entry) (most_of listing.limit) selection.now listing.style
        (P.written output.old) (P.written output.new)) }
    ensures handed_on { IfPrinted result (λ passes.
        P.handed_on output.new ≡ P.written output.new) }
    ensures failed { IfErr result (ListNameFails (W.files world.old) inputs.entry.journal.now
        (list_of inputs.entry) (most_of listing.limit) selection.now listing.style
        (P.written output.old) (P.written output.new)) }
    ensures same_files { W.files world.new ≡ W.files world.old }
    ensures same_folders { W.folders world.new ≡ W.folders world.old }
    ensures same_closed { W.closed world.new ≡ W.closed world.old }
{
    let (mut source, listed) = open_listed(world, alloc, inputs)?;
    let picks = Listed {
        listed,
        picks: *selection,
    };
    let mut asides = world.asides();
    let mut lines = asides.aside()?;
    let mut gap_lines = asides.aside()?;
    gaps_on(
        alloc,
        listing,
        &mut source,
        &picks,
        &mut lines,
        &mut gap_lines,
        output,
    )
}

/// Prints how the journals of two names differ in the selected objects, in a style.
///
/// # Errors
///
/// That an input is not opened, or `OutOfMemory`; then those of [`compare_on`].
pub fn compare<W: World, P: Outlet>(
    world: &mut W,
    alloc: Global,
    selection: &Selection,
    style: CompareStyle,
    first: &str,
    second: &str,
    output: &mut P,
) -> Result<(), CommandFault>
    ensures compared { OnOk result (ComparesNames (W.files world.old) first.now
        second.now selection.now style (P.written output.old) (P.written output.new)) }
    ensures handed_on { IfCompared result (λ passes.
        P.handed_on output.new ≡ P.written output.new) }
    ensures failed { IfErr result (CompareNamesFail (W.files world.old) first.now
        second.now selection.now style (P.written output.old) (P.written output.new)) }
    ensures same_files { W.files world.new ≡ W.files world.old }
    ensures same_folders { W.folders world.new ≡ W.folders world.old }
    ensures same_closed { W.closed world.new ≡ W.closed world.old }
{
    let (first, second) = open_two(world, first, second)?;
    let mut asides = world.asides();
    let mut lines = asides.aside()?;
    let mut first = compare_input(first, *selection);
    let mut second = compare_input(second, *selection);
    compare_on(alloc, &mut first, &mut second, style, &mut lines, output)
}

/// Leaves a new folder of this name, with a file for each object that a journal makes whole, of
/// those that are picked, and listed if there is a list; and prints their lines and the number of
/// files.
///
/// # Errors
///
/// Those of [`open_listed`], or that the output cannot be made; then those of [`extract_all_into`].
pub fn extract_all<W: World, P: Outlet>(
    world: &mut W,
    alloc: Global,
    out: &str,
    limit: Limit,
    picked: Picked,
    inputs: ListedJournal<'_>,
    output: &mut P,
) -> Result<(), CommandFault>
    ensures extracted { OnOk result (LeavesFolderOfName (W.files world.old) inputs.entry.journal.now
        (list_of inputs.entry) (most_of limit) picked (W.folders world.old out.now)
        (W.folders world.new out.now) (P.written output.old) (P.written output.new)) }
    ensures handed_on { OnOk result (P.handed_on output.new ≡ P.written output.new) }
    ensures failed { IfErr result (FolderOfNameFails (W.files world.old) inputs.entry.journal.now
        (list_of inputs.entry) (most_of limit) picked (W.folders world.old out.now)
        (W.folders world.new out.now)) }
    ensures same_files { W.files world.new ≡ W.files world.old }
    ensures any_moment { KeepsFolder out.now (W.folders world.old) (W.folders world.new) }
    ensures same_closed { W.closed world.new ≡ W.closed world.old }
{
    let (mut source, listed) = open_listed(world, alloc, inputs)?;
    let picks = Listed {
        listed,
        picks: picked,
    };
    let mut folder = world.new_folder(out)?;
    let done = extract_all_into(alloc, limit, &mut folder, &mut source, &picks, output);
    world.close_folder(out, folder);
    done
}
