//! The commands, from the names of their files to what they leave.
ghost use Rattle.std.specs.Prelude.{◌≡◌, OnOk, IfOk, IfErr};
ghost use Rattle.flutejoin_commands.specs.Closings.{ClosesWhole};
ghost use Rattle.flutejoin_commands.specs.Deeds.{IsDone, IsNotDone, adds, adds_list, extracts};
ghost use Rattle.flutejoin_commands.specs.Deeds.{merges, sends};
ghost use Rattle.flutejoin_commands.specs.Named.{ForgetInNameFails, ForgetListOfNamesFails};
ghost use Rattle.flutejoin_commands.specs.Named.{ForgetsInName, ForgetsListOfNames, MeasureFails};
ghost use Rattle.flutejoin_commands.specs.Works.{forget_lines};
ghost use Rattle.flutejoin_commands.specs.Worlds.{FailsToLeave, IsAgain, Leaves, Spares, outside};

use crate::adding::InfoWork;
use crate::adding_list::InfoListWork;
use crate::beginning::{begin, begin_with_list, begin_with_two};
use crate::delivery::Delivery;
use crate::extracting::ExtractWork;
use crate::forgetting::{ForgetListWork, ForgetWork};
use crate::leaving::leave;
use crate::merging::MergeWork;
use crate::no_output::IfNoOutput;
use crate::outlet::Outlet;
use crate::sending::SendWork;
use crate::world::World;
use flute_parts::Sink;
use flute_streams::Selection;
use flutejoin::{Asides, CommandFault, forget_input, is_too_large, put_aside};
use flutejoin_line::{
    CarouselLine, ExtractLine, InfoLine, InfoListLine, ListedInputs, MergeLine, Target,
};
use std::alloc::Global;

/// Merges the journals of two names into the output, and prints the number of entries.
///
/// # Errors
///
/// The first input that is not opened; why OUT is not overwritten; then those of
/// [`merge_to`](flutejoin::merge_to), of the output and of printing, as [`leave`] says.
pub fn merge<W: World, O: Outlet, E: Sink>(
    world: &mut W,
    alloc: Global,
    line: MergeLine<'_>,
    output: &mut O,
    errors: &mut E,
) -> Result<(), CommandFault>
    ensures merged { OnOk result (IsDone (merges line.entry) line.entry.target
        (outside (W.files world.old) (O.written output.old) (E.written errors.old))
        (outside (W.files world.new) (O.written output.new) (E.written errors.new))) }
    ensures handed_on { OnOk result (O.handed_on output.new ≡ O.written output.new) }
    ensures spared { Spares line.entry.target.overwrites line.entry.target.out.now
        (W.files world.old) (W.files world.new) }
    ensures any_moment { ClosesWhole line.entry.target.out.now (W.files world.old)
        (W.closed world.old) (W.closed world.new) }
    ensures same_folders { W.folders world.new ≡ W.folders world.old }
    ensures failed { IfErr result (IsNotDone (merges line.entry) line.entry.target
        (outside (W.files world.old) (O.written output.old) (E.written errors.old))
        (outside (W.files world.new) (O.written output.new) (E.written errors.new))) }
{
    let target = line.target;
    let (first, second) = begin_with_two(world, target, line.a, line.b)?;
    let work = MergeWork {
        alloc,
        first,
        second,
    };
    leave(
        world,
        target,
        work,
        Delivery::AtOnce(IfNoOutput::Report),
        output,
        errors,
    )
}

/// Adds information to the journal of this name, and prints the number of entries.
///
/// # Errors
///
/// That the input is not opened; why OUT is not overwritten; then those of
/// [`info_to`](flutejoin::info_to), of the output and of printing, as [`leave`] says.
pub fn info<W: World, O: Outlet, E: Sink>(
    world: &mut W,
    alloc: Global,
    line: InfoLine<'_>,
    output: &mut O,
    errors: &mut E,
) -> Result<(), CommandFault>
    ensures added { OnOk result (IsDone (adds line.entry) line.entry.target
        (outside (W.files world.old) (O.written output.old) (E.written errors.old))
        (outside (W.files world.new) (O.written output.new) (E.written errors.new))) }
    ensures handed_on { OnOk result (O.handed_on output.new ≡ O.written output.new) }
    ensures spared { Spares line.entry.target.overwrites line.entry.target.out.now
        (W.files world.old) (W.files world.new) }
    ensures any_moment { ClosesWhole line.entry.target.out.now (W.files world.old)
        (W.closed world.old) (W.closed world.new) }
    ensures same_folders { W.folders world.new ≡ W.folders world.old }
    ensures failed { IfErr result (IsNotDone (adds line.entry) line.entry.target
        (outside (W.files world.old) (O.written output.old) (E.written errors.old))
        (outside (W.files world.new) (O.written output.new) (E.written errors.new))) }
{
    let target = line.target;
    let source = begin(world, target, line.journal)?;
    let work = InfoWork {
        alloc,
        limit: line.limit,
        key: line.key,
        info: line.info,
        source,
    };
    leave(
        world,
        target,
        work,
        Delivery::AtOnce(IfNoOutput::Try),
        output,
        errors,
    )
}

/// Adds the information in a list to a journal, both of these names, and prints the number
/// of entries.
///
/// # Errors
///
/// The first input that is not opened, the journal or the list; why OUT is not overwritten; then
/// those of [`info_list_to`](flutejoin::info_list_to), of the output and of printing, as [`leave`]
/// says.
pub fn info_list<W: World, O: Outlet, E: Sink>(
    world: &mut W,
    alloc: Global,
    line: InfoListLine<'_>,
    output: &mut O,
    errors: &mut E,
) -> Result<(), CommandFault>
    ensures added { OnOk result (IsDone (adds_list line.entry) line.entry.target
        (outside (W.files world.old) (O.written output.old) (E.written errors.old))
        (outside (W.files world.new) (O.written output.new) (E.written errors.new))) }
    ensures handed_on { OnOk result (O.handed_on output.new ≡ O.written output.new) }
    ensures spared { Spares line.entry.target.overwrites line.entry.target.out.now
        (W.files world.old) (W.files world.new) }
    ensures any_moment { ClosesWhole line.entry.target.out.now (W.files world.old)
        (W.closed world.old) (W.closed world.new) }
    ensures same_folders { W.folders world.new ≡ W.folders world.old }
    ensures failed { IfErr result (IsNotDone (adds_list line.entry) line.entry.target
        (outside (W.files world.old) (O.written output.old) (E.written errors.old))
        (outside (W.files world.new) (O.written output.new) (E.written errors.new))) }
{
    let target = line.target;
    let (source, list) = begin_with_list(world, target, line.journal, line.list)?;
    let work = InfoListWork {
        alloc,
        limit: line.limit,
        source,
        list,
    };
    leave(
        world,
        target,
        work,
        Delivery::AtOnce(IfNoOutput::Try),
        output,
        errors,
    )
}

/// Takes the entries that are selected out of the journal of this name, and prints how many were
/// and how many were not.
///
/// # Errors
///
/// That the input is not opened; why OUT is not overwritten; then those of
/// [`forget_to`](flutejoin::forget_to), of the output and of printing, as [`leave`] says.
pub fn forget<W: World, O: Outlet, E: Sink>(
    world: &mut W,
    alloc: Global,
    target: Target<'_>,
    selection: Selection,
    journal: &str,
    output: &mut O,
    errors: &mut E,
) -> Result<(), CommandFault>
    ensures forgot { OnOk result (Leaves
        (ForgetsInName (W.files world.old) journal.now selection)
        (ForgetsInName (W.files world.old) journal.now selection) forget_lines target.entry.out.now
        (outside (W.files world.old) (O.written output.old) (E.written errors.old))
        (outside (W.files world.new) (O.written output.new) (E.written errors.new))) }
    ensures handed_on { OnOk result (O.handed_on output.new ≡ O.written output.new) }
    ensures spared { Spares target.entry.overwrites target.entry.out.now
        (W.files world.old) (W.files world.new) }
    ensures any_moment { ClosesWhole target.entry.out.now (W.files world.old)
        (W.closed world.old) (W.closed world.new) }
    ensures same_folders { W.folders world.new ≡ W.folders world.old }
    ensures failed { IfErr result (FailsToLeave
        (ForgetsInName (W.files world.old) journal.now selection)
        (ForgetInNameFails (W.files world.old) journal.now) target.entry.out.now
        (outside (W.files world.old) (O.written output.old) (E.written errors.old))
        (outside (W.files world.new) (O.written output.new) (E.written errors.new))) }
{
    let source = begin(world, target, journal)?;
    let input = forget_input(source, selection);
    let work = ForgetWork { alloc, input };
    leave(
        world,
        target,
        work,
        Delivery::AtOnce(IfNoOutput::Try),
        output,
        errors,
    )
}

/// Takes the entries that are selected, of the objects in a list, out of a journal, both of these
/// names, and prints how many were and how many were not.
///
/// # Errors
///
/// The first input that is not opened, the journal or the list; why OUT is not overwritten; then
/// those of [`forget_list_to`](flutejoin::forget_list_to), of the output and of printing, as
/// [`leave`] says.
pub fn forget_list<W: World, O: Outlet, E: Sink>(
    world: &mut W,
    alloc: Global,
    target: Target<'_>,
    selection: Selection,
    inputs: ListedInputs<'_>,
    output: &mut O,
    errors: &mut E,
) -> Result<(), CommandFault>
    ensures forgot { OnOk result (Leaves
        (ForgetsListOfNames (W.files world.old) inputs.entry.journal.now inputs.entry.list.now
        selection)
        (ForgetsListOfNames (W.files world.old) inputs.entry.journal.now inputs.entry.list.now
        selection)
        forget_lines target.entry.out.now
        (outside (W.files world.old) (O.written output.old) (E.written errors.old))
        (outside (W.files world.new) (O.written output.new) (E.written errors.new))) }
    ensures handed_on { OnOk result (O.handed_on output.new ≡ O.written output.new) }
    ensures spared { Spares target.entry.overwrites target.entry.out.now
        (W.files world.old) (W.files world.new) }
    ensures any_moment { ClosesWhole target.entry.out.now (W.files world.old)
        (W.closed world.old) (W.closed world.new) }
    ensures same_folders { W.folders world.new ≡ W.folders world.old }
    ensures failed { IfErr result (FailsToLeave
        (ForgetsListOfNames (W.files world.old) inputs.entry.journal.now inputs.entry.list.now
        selection)
        (ForgetListOfNamesFails (W.files world.old) inputs.entry.journal.now inputs.entry.list.now)
        target.entry.out.now
        (outside (W.files world.old) (O.written output.old) (E.written errors.old))
        (outside (W.files world.new) (O.written output.new) (E.written errors.new))) }
{
    let (source, list) = begin_with_list(world, target, inputs.journal, inputs.list)?;
    let input = forget_input(source, selection);
    let work = ForgetListWork { alloc, input, list };
    leave(
        world,
        target,
        work,
        Delivery::AtOnce(IfNoOutput::Try),
        output,
        errors,
    )
}

/// Writes the object that the journal of this name makes whole, and prints the number of its bytes.
/// Nothing goes to a pipe, a device or standard output of an object that is not whole.
///
/// # Errors
///
/// That the input is not opened; why OUT is not overwritten; then those of
/// [`extract_to`](flutejoin::extract_to), of the output and of printing, as [`leave`] says.
pub fn extract<W: World, O: Outlet, E: Sink>(
    world: &mut W,
    alloc: Global,
    line: ExtractLine<'_>,
    output: &mut O,
    errors: &mut E,
) -> Result<(), CommandFault>
    ensures extracted { OnOk result (IsDone (extracts line.entry) line.entry.target
        (outside (W.files world.old) (O.written output.old) (E.written errors.old))
        (outside (W.files world.new) (O.written output.new) (E.written errors.new))) }
    ensures handed_on { OnOk result (O.handed_on output.new ≡ O.written output.new) }
    ensures spared { Spares line.entry.target.overwrites line.entry.target.out.now
        (W.files world.old) (W.files world.new) }
    ensures any_moment { ClosesWhole line.entry.target.out.now (W.files world.old)
        (W.closed world.old) (W.closed world.new) }
    ensures same_folders { W.folders world.new ≡ W.folders world.old }
    ensures failed { IfErr result (IsNotDone (extracts line.entry) line.entry.target
        (outside (W.files world.old) (O.written output.old) (E.written errors.old))
        (outside (W.files world.new) (O.written output.new) (E.written errors.new))) }
{
    let target = line.target;
    let source = begin(world, target, line.journal)?;
    let work = ExtractWork {
        alloc,
        limit: line.limit,
        key: line.key,
        source,
    };
    leave(world, target, work, Delivery::Whole(alloc), output, errors)
}

/// Writes the datagrams of an object whose content is the file of this name, as it is read, and
/// prints their number. A file that is known to be too large is not read; if the number of its
/// bytes is not known, they are put aside first.
///
/// # Errors
///
/// That the input is not opened; why OUT is not overwritten; `TooLarge`; `Input` with `Read`, or
/// `CannotWrite`, if its bytes cannot be put aside; then those of [`send_to`](flutejoin::send_to),
/// of the output and of printing, as [`leave`] says.
pub fn carousel<W: World, O: Outlet, E: Sink>(
    world: &mut W,
    alloc: Global,
    line: CarouselLine<'_>,
    output: &mut O,
    errors: &mut E,
) -> Result<(), CommandFault>
    ensures sent { OnOk result (IsDone (sends line.entry) line.entry.target
        (outside (W.files world.old) (O.written output.old) (E.written errors.old))
        (outside (W.files world.new) (O.written output.new) (E.written errors.new))) }
    ensures handed_on { OnOk result (O.handed_on output.new ≡ O.written output.new) }
    ensures spared { Spares line.entry.target.overwrites line.entry.target.out.now
        (W.files world.old) (W.files world.new) }
    ensures any_moment { ClosesWhole line.entry.target.out.now (W.files world.old)
        (W.closed world.old) (W.closed world.new) }
    ensures same_folders { W.folders world.new ≡ W.folders world.old }
    ensures failed { IfErr result (IsNotDone (sends line.entry) line.entry.target
        (outside (W.files world.old) (O.written output.old) (E.written errors.old))
        (outside (W.files world.new) (O.written output.new) (E.written errors.new))) }
{
    let target = line.target;
    let source = begin(world, target, line.file)?;
    let (source, size) = measured(world, source)?;
    let work = SendWork {
        alloc,
        key: line.key,
        symbol: line.symbol,
        block: line.block,
        size,
        source,
    };
    leave(
        world,
        target,
        work,
        Delivery::AtOnce(IfNoOutput::Try),
        output,
        errors,
    )
}

// An input of these bytes, and how many they are: if that is not known, they are put aside.
fn measured<W: World>(world: &mut W, mut source: W::Input) -> Result<(W::Input, u64), CommandFault>
    ensures same { IfOk result
        (λ m. IsAgain (W.files world.old) (W.Input.unread source) (W.Input.unread m.0)) }
    ensures failed { IfErr result (MeasureFails (W.Input.unread source)) }
    ensures same_files { W.files world.new ≡ W.files world.old }
    ensures same_folders { W.folders world.new ≡ W.folders world.old }
    ensures same_closed { W.closed world.new ≡ W.closed world.old }
{
    match world.size(&source) {
        Some(size) if is_too_large(Some(size)) => Err(CommandFault::TooLarge(1)),
        Some(size) => Ok((source, size)),
        None => {
            let mut asides = world.asides();
            let mut aside = asides.aside()?;
            let size = put_aside(&mut source, &mut aside)?;
            let again = asides.again(aside)?;
            Ok((again, size))
        }
    }
}
