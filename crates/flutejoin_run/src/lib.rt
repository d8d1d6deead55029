//! A run of the program `flutejoin`: [`run`] does what the words after its name say, in a [`World`]
//! of files, streams and folders.
//!
//! With the system's files and streams (from `flutejoin_cli`):
//!
//! ```
//! let mut output = StdSink::new(writer);
//! let mut errors = StdSink::new(io::writer(errors));
//! run(
//!     &mut System::new(rt),
//!     rt.alloc(),
//!     words.as_slice(),
//!     &mut output,
//!     &mut errors,
//! )
//! ```
#![tactic(auto)]

ghost use Rattle.std.specs.Prelude.{◌≡◌, map, string_bytes, OnOk, IfErr};
ghost use Rattle.flutejoin_run.specs.Runs.{ClosesOut, ClosesOutOfWords, Does, DoesWords, FailsToDo};
ghost use Rattle.flutejoin_run.specs.Runs.{KeepsFolders, KeepsFoldersOfWords};
ghost use Rattle.flutejoin_run.specs.Runs.{FailsToDoWords, SparesOut, task_of};
ghost use Rattle.flutejoin_commands.specs.Worlds.{outside};

use flute_parts::Sink;
use flutejoin::CommandFault;
use flutejoin_commands::{
    Listing, Outlet, World, carousel, compare, extract, extract_all, fill, forget, forget_list,
    gaps, info, info_list, join, merge, minus, packet, show,
};
use flutejoin_line::{
    CompareLine, ExtractAllLine, ForgetLine, ForgetListLine, GapsLine, Line, PacketLine, ShowLine,
    line_of,
};
use std::alloc::Global;

/// Does what the words after the program's name say, in a world whose standard output and standard
/// error are `output` and `errors`.
///
/// # Errors
///
/// Those of [`line_of`], and nothing is done then; and those of the command.
pub fn run<W: World, O: Outlet, E: Sink>(
    world: &mut W,
    alloc: Global,
    words: &[String],
    output: &mut O,
    errors: &mut E,
) -> Result<(), CommandFault>
    ensures done { OnOk result (DoesWords (W.folders world.old) (W.folders world.new)
        (map string_bytes words.now)
        (outside (W.files world.old) (O.written output.old) (E.written errors.old))
        (outside (W.files world.new) (O.written output.new) (E.written errors.new))) }
    ensures handed_on { OnOk result (O.handed_on output.new ≡ O.written output.new) }
    ensures failed { IfErr result (FailsToDoWords (W.folders world.old) (W.folders world.new)
        (map string_bytes words.now)
        (outside (W.files world.old) (O.written output.old) (E.written errors.old))
        (outside (W.files world.new) (O.written output.new) (E.written errors.new))) }
    ensures any_moment { ClosesOutOfWords (map string_bytes words.now) (W.files world.old)
        (W.closed world.old) (W.closed world.new) }
    ensures folder_whole { KeepsFoldersOfWords (W.folders world.old) (W.folders world.new)
        (map string_bytes words.now) }
{
    let line = line_of(alloc, words)?;
    run_line(world, alloc, line, output, errors)
}

// Does what a line says.
fn run_line<W: World, O: Outlet, E: Sink>(
    world: &mut W,
    alloc: Global,
    line: Line<'_>,
    output: &mut O,
    errors: &mut E,
) -> Result<(), CommandFault>
    ensures spared { SparesOut (task_of line.entry) (W.files world.old) (W.files world.new) }
    ensures done { OnOk result (Does (W.folders world.old) (W.folders world.new)
        (task_of line.entry)
        (outside (W.files world.old) (O.written output.old) (E.written errors.old))
        (outside (W.files world.new) (O.written output.new) (E.written errors.new))) }
    ensures handed_on { OnOk result (O.handed_on output.new ≡ O.written output.new) }
    ensures failed { IfErr result (FailsToDo (W.folders world.old) (W.folders world.new)
        (task_of line.entry)
        (outside (W.files world.old) (O.written output.old) (E.written errors.old))
        (outside (W.files world.new) (O.written output.new) (E.written errors.new))) }
    ensures any_moment { ClosesOut (task_of line.entry) (W.files world.old)
        (W.closed world.old) (W.closed world.new) }
    ensures folder_whole { KeepsFolders (W.folders world.old) (W.folders world.new)
        (task_of line.entry) }
{
    match line {
        Line::Packet(PacketLine { form, hex }) => packet(alloc, hex, form, output),
        Line::Show(
            ShowLine {
                selection,
                style,
                inputs,
            },
        ) => show(world, alloc, &selection, style, inputs, output),
        Line::Gaps(
            GapsLine {
                limit,
                selection,
                style,
                inputs,
            },
        ) => gaps(
            world,
            alloc,
            &selection,
            Listing { limit, style },
            inputs,
            output,
        ),
        Line::Compare(
            CompareLine {
                selection,
                style,
                first,
                second,
            },
        ) => compare(world, alloc, &selection, style, first, second, output),
        Line::Extract(line) => extract(world, alloc, line, output, errors),
        Line::ExtractAll(
            ExtractAllLine {
                out,
                limit,
                picked,
                inputs,
            },
        ) => extract_all(world, alloc, out, limit, picked, inputs, output),
        Line::Info(line) => info(world, alloc, line, output, errors),
        Line::InfoList(line) => info_list(world, alloc, line, output, errors),
        Line::Join(line) => join(world, alloc, line, output, errors),
        Line::Merge(line) => merge(world, alloc, line, output, errors),
        Line::Minus(line) => minus(world, alloc, line, output, errors),
        Line::Fill(line) => fill(world, alloc, line, output, errors),
        Line::Forget(
            ForgetLine {
                target,
                selection,
                journal,
            },
        ) => forget(world, alloc, target, selection, journal, output, errors),
        Line::ForgetList(
            ForgetListLine {
                target,
                selection,
                inputs,
            },
        ) => forget_list(world, alloc, target, selection, inputs, output, errors),
        Line::Carousel(line) => carousel(world, alloc, line, output, errors),
    }
}
