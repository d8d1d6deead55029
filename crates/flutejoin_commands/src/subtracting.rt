//! `MinusWork`: the work of the command `minus`; and that command over its line.
ghost use Rattle.std.specs.Prelude.{◌≡◌, OnOk, IfErr};
ghost use Rattle.flutejoin.specs.Lines.{entries_line};
ghost use Rattle.flutejoin.specs.Merge.{MergeFails};
ghost use Rattle.flutejoin.specs.Minus.{WritesMinus};
ghost use Rattle.flutejoin_commands.specs.Closings.{ClosesWhole};
ghost use Rattle.flutejoin_commands.specs.Deeds.{IsDone, IsNotDone, subtracts};
ghost use Rattle.flutejoin_commands.specs.Worlds.{Spares, outside};

use crate::beginning::begin_with_two;
use crate::delivery::Delivery;
use crate::leaving::leave;
use crate::no_output::IfNoOutput;
use crate::outlet::Outlet;
use crate::work::Work;
use crate::world::World;
use flute_parts::{Sink, Source};
use flutejoin::{CommandFault, MinusInput, Report, minus_input, minus_to};
use flutejoin_line::MinusLine;
use std::alloc::Global;

/// Takes out of a journal what another has already.
#[derive(Drop)]
pub struct MinusWork<A, B> {
    pub alloc: Global,
    pub input: MinusInput<A, B>,
}

impl<A: Source + Drop, B: Source + Drop> Work for MinusWork<A, B> {
    type Answer = u64;

    ghost writes = { λ w.
        WritesMinus (A.unread w.input.first.source) (B.unread w.input.second.source) };

    ghost fails = { λ w.
        MergeFails (A.unread w.input.first.source) (B.unread w.input.second.source) };

    ghost tells = { λ _. entries_line };

    fn write<W: Sink>(&mut self, sink: &mut W) -> Result<(u64, Report), CommandFault> {
        let entries = minus_to(self.alloc, &mut self.input, sink)?;
        let mut lines = Report::new();
        lines.push_count("entries", entries);
        Ok((entries, lines))
    }
}

/// Writes what a join of the journal of the second name with that of the first would change into
/// the output, as a journal, and prints the number of its entries.
///
/// # Errors
///
/// The first input that is not opened; why OUT is not overwritten; then those of
/// [`minus_to`](flutejoin::minus_to), of the output and of printing, as [`leave`] says.
pub fn minus<W: World, O: Outlet, E: Sink>(
    world: &mut W,
    alloc: Global,
    line: MinusLine<'_>,
    output: &mut O,
    errors: &mut E,
) -> Result<(), CommandFault>
    ensures subtracted { OnOk result (IsDone (subtracts line.entry) line.entry.target
        (outside (W.files world.old) (O.written output.old) (E.written errors.old))
        (outside (W.files world.new) (O.written output.new) (E.written errors.new))) }
    ensures handed_on { OnOk result (O.handed_on output.new ≡ O.written output.new) }
    ensures spared { Spares line.entry.target.overwrites line.entry.target.out.now
        (W.files world.old) (W.files world.new) }
    ensures any_moment { ClosesWhole line.entry.target.out.now (W.files world.old)
        (W.closed world.old) (W.closed world.new) }
    ensures same_folders { W.folders world.new ≡ W.folders world.old }
    ensures failed { IfErr result (IsNotDone (subtracts line.entry) line.entry.target
        (outside (W.files world.old) (O.written output.old) (E.written errors.old))
        (outside (W.files world.new) (O.written output.new) (E.written errors.new))) }
{
    let target = line.target;
    let (first, second) = begin_with_two(world, target, line.first, line.second)?;
    let input = minus_input(first, second);
    let work = MinusWork { alloc, input };
    leave(
        world,
        target,
        work,
        Delivery::AtOnce(IfNoOutput::Try),
        output,
        errors,
    )
}
