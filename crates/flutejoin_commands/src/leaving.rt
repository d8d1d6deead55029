//! `leave`: does a work into what the output's name leads to, a file, a device or standard output.
ghost use Rattle.std.specs.Prelude.{◌≡◌, ◌≢◌, OnOk, IfErr};
ghost use Rattle.flutejoin.specs.declared.command_fault.CommandFault.TheVariants.{CannotWrite};
ghost use Rattle.flutejoin_commands.specs.Closings.{ClosesWhole};
ghost use Rattle.flutejoin_commands.specs.Deliveries.{FailsDelivered, delivered};
ghost use Rattle.flutejoin_commands.specs.Outlets.{PutsOut, outlets};
ghost use Rattle.flutejoin_commands.specs.Worlds.{FailsToLeave, IsReason, Leaves, outside};

use crate::delivery::Delivery;
use crate::no_output::without_output;
use crate::outlet::Outlet;
use crate::outlet_command::{write_held, write_through};
use crate::output_command::write_into;
use crate::printing::hand_on;
use crate::work::Work;
use crate::world::World;
use flute_output::Place;
use flute_parts::Sink;
use flutejoin::CommandFault;
use flutejoin_line::Target;

/// Does the work, leaves what it writes at the name of its output, and hands on its lines: they go
/// to standard output, and to standard error if the name means standard output.
///
/// # Errors
///
/// Those of [`write_into`] for a file, and of [`write_through`] or [`write_held`] for what takes
/// its bytes itself; last `CannotWrite` if standard output failed to hand them on.
pub fn leave<W: World, K: Work + Drop, O: Outlet, E: Sink>(
    world: &mut W,
    target: Target<'_>,
    work: K,
    delivery: Delivery,
    output: &mut O,
    errors: &mut E,
) -> Result<(), CommandFault>
    ensures left { OnOk result (Leaves (K.writes work) (delivered delivery (K.writes work))
        (K.tells work) target.entry.out.now
        (outside (W.files world.old) (O.written output.old) (E.written errors.old))
        (outside (W.files world.new) (O.written output.new) (E.written errors.new))) }
    ensures handed_on { OnOk result (O.handed_on output.new ≡ O.written output.new) }
    ensures failed { IfErr result (FailsToLeave (K.writes work)
        (FailsDelivered delivery (K.fails work)) target.entry.out.now
        (outside (W.files world.old) (O.written output.old) (E.written errors.old))
        (outside (W.files world.new) (O.written output.new) (E.written errors.new))) }
    ensures any_moment { ClosesWhole target.entry.out.now (W.files world.old)
        (W.closed world.old) (W.closed world.new) }
    ensures same_folders { W.folders world.new ≡ W.folders world.old }
{
    let done = put(world, target, work, delivery, output, errors);
    hand_on(output, done)
}

// Does the work, and leaves what it writes. The lines may wait in standard output.
fn put<W: World, K: Work + Drop, O: Outlet, E: Sink>(
    world: &mut W,
    target: Target<'_>,
    mut work: K,
    delivery: Delivery,
    output: &mut O,
    errors: &mut E,
) -> Result<(), CommandFault>
    ensures left { OnOk result (Leaves (K.writes work) (delivered delivery (K.writes work))
        (K.tells work) target.entry.out.now
        (outside (W.files world.old) (O.written output.old) (E.written errors.old))
        (outside (W.files world.new) (O.written output.new) (E.written errors.new))) }
    ensures failed { IfErr result (FailsToLeave (K.writes work)
        (FailsDelivered delivery (K.fails work)) target.entry.out.now
        (outside (W.files world.old) (O.written output.old) (E.written errors.old))
        (outside (W.files world.new) (O.written output.new) (E.written errors.new))) }
    ensures any_moment { ClosesWhole target.entry.out.now (W.files world.old)
        (W.closed world.old) (W.closed world.new) }
    ensures same_folders { W.folders world.new ≡ W.folders world.old }
{
    match world.place(target.out) {
        Ok(Place::File(folder)) => {
            let (done, folder) = write_into(folder, work, delivery.if_no_output(), output);
            world.close(target.out, folder);
            done
        }
        Ok(Place::Device(mut device)) => deliver(&mut device, work, delivery, output),
        Ok(Place::StandardOutput) => deliver(output, work, delivery, errors),
        Err(fault) => Err(without_output(&mut work, delivery.if_no_output(), fault)),
    }
}

// Does the work of an output that takes its bytes itself.
fn deliver<O: Outlet, K: Work + Drop, P: Sink>(
    output: &mut O,
    work: K,
    delivery: Delivery,
    report: &mut P,
) -> Result<(), CommandFault>
    ensures written { OnOk result (PutsOut (delivered delivery (K.writes work)) (K.tells work)
        (outlets (O.written output.old) (O.failures output.old)
        (P.written report.old) (P.failures report.old))
        (outlets (O.written output.new) (O.failures output.new)
        (P.written report.new) (P.failures report.new))) }
    ensures failed { IfErr result (IsReason (FailsDelivered delivery (K.fails work))) }
    ensures untold { IfErr result (λ fault. fault ≢ CannotWrite
        → P.written report.new ≡ P.written report.old) }
{
    match delivery {
        Delivery::AtOnce(if_none) => write_through(output, work, if_none, report),
        Delivery::Whole(alloc) => write_held(alloc, output, work, report),
    }
}
