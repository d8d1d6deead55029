//! `FillWork`: the work of the command `fill`; and that command over its line.
ghost use Rattle.std.specs.Prelude.{◌≡◌, OnOk, IfErr};
ghost use Rattle.flutejoin.specs.Fill.{FillFails, WritesFill};
ghost use Rattle.flutejoin.specs.Lines.{entries_line};
ghost use Rattle.flutejoin_commands.specs.Closings.{ClosesWhole};
ghost use Rattle.flutejoin_commands.specs.Deeds.{IsDone, IsNotDone, fills};
ghost use Rattle.flutejoin_commands.specs.Worlds.{Spares, outside};

use crate::beginning::begin_with_list;
use crate::delivery::Delivery;
use crate::leaving::leave;
use crate::no_output::IfNoOutput;
use crate::outlet::Outlet;
use crate::work::Work;
use crate::world::World;
use flute_parts::{Sink, Source};
use flutejoin::{CommandFault, FillInput, Report, fill_input, fill_to};
use flutejoin_line::FillLine;
use std::alloc::Global;

/// Takes out of a journal what lines of `gaps` ask for.
#[derive(Drop)]
pub struct FillWork<A, B> {
    pub alloc: Global,
    pub input: FillInput<A, B>,
}

impl<A: Source + Drop, B: Source + Drop> Work for FillWork<A, B> {
    type Answer = u64;

    ghost writes = { λ w. WritesFill w.input.asking
        (A.unread w.input.facts.source) (B.unread w.input.list.source) };

    ghost fails = { λ w.
        FillFails (A.unread w.input.facts.source) (B.unread w.input.list.source) };

    ghost tells = { λ _. entries_line };

    fn write<W: Sink>(&mut self, sink: &mut W) -> Result<(u64, Report), CommandFault> {
        let entries = fill_to(self.alloc, &mut self.input, sink)?;
        let mut lines = Report::new();
        lines.push_count("entries", entries);
        Ok((entries, lines))
    }
}

/// Writes what of the journal of one name the lines of the other ask for into the output, as a
/// journal, and prints the number of its entries.
///
/// # Errors
///
/// The first input that is not opened, the journal or the lines; why OUT is not overwritten; then
/// those of [`fill_to`](flutejoin::fill_to), of the output and of printing, as [`leave`] says.
pub fn fill<W: World, O: Outlet, E: Sink>(
    world: &mut W,
    alloc: Global,
    line: FillLine<'_>,
    output: &mut O,
    errors: &mut E,
) -> Result<(), CommandFault>
    ensures filled { OnOk result (IsDone (fills line.entry) line.entry.target
        (outside (W.files world.old) (O.written output.old) (E.written errors.old))
        (outside (W.files world.new) (O.written output.new) (E.written errors.new))) }
    ensures handed_on { OnOk result (O.handed_on output.new ≡ O.written output.new) }
    ensures spared { Spares line.entry.target.overwrites line.entry.target.out.now
        (W.files world.old) (W.files world.new) }
    ensures any_moment { ClosesWhole line.entry.target.out.now (W.files world.old)
        (W.closed world.old) (W.closed world.new) }
    ensures same_folders { W.folders world.new ≡ W.folders world.old }
    ensures failed { IfErr result (IsNotDone (fills line.entry) line.entry.target
        (outside (W.files world.old) (O.written output.old) (E.written errors.old))
        (outside (W.files world.new) (O.written output.new) (E.written errors.new))) }
{
    let target = line.target;
    let (journal, gaps) = begin_with_list(world, target, line.journal, line.gaps)?;
    let input = fill_input(journal, gaps, line.asking);
    let work = FillWork { alloc, input };
    leave(
        world,
        target,
        work,
        Delivery::AtOnce(IfNoOutput::Try),
        output,
        errors,
    )
}
