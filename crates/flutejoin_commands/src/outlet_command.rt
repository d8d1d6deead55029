//! Does a work into an outlet, and reports.
ghost use Rattle.std.specs.Prelude.{◌≡◌, ◌≢◌, OnOk, IfErr};
ghost use Rattle.flutejoin.specs.declared.command_fault.CommandFault.TheVariants.{CannotWrite};
ghost use Rattle.flutejoin_commands.specs.Commands.{CouldBeDone};
ghost use Rattle.flutejoin_commands.specs.Outlets.{PutsOut, FailsOut, Held, FailsHeld, outlets};

use crate::no_output::{IfNoOutput, without_output};
use crate::outlet::Outlet;
use crate::work::Work;
use flute_parts::{MemorySink, Sink};
use flutejoin::CommandFault;
use std::alloc::Global;

/// Opens the output, and does the work: what it writes is handed on, and its lines go to the
/// report.
///
/// # Errors
///
/// The fault of the work, which comes first; `CannotCreate` if the output could not be opened, as
/// [`without_output`] says; `CannotWrite` if it failed. Nothing is reported then, and the
/// output keeps what it took. Last, `CannotWrite` if the report failed.
pub fn write_through<O: Outlet, K: Work + Drop, P: Sink>(
    output: &mut O,
    mut work: K,
    if_none: IfNoOutput,
    report: &mut P,
) -> Result<(), CommandFault>
    ensures written { OnOk result (PutsOut (K.writes work) (K.tells work)
        (outlets (O.written output.old) (O.failures output.old)
        (P.written report.old) (P.failures report.old))
        (outlets (O.written output.new) (O.failures output.new)
        (P.written report.new) (P.failures report.new))) }
    ensures handed_on { OnOk result (O.handed_on output.new ≡ O.written output.new) }
    ensures failed { IfErr result (FailsOut (K.writes work) (K.fails work) (K.tells work)
        (if_none ≡ IfNoOutput.Try → CouldBeDone (K.writes work)) (CouldBeDone (K.writes work))
        (outlets (O.written output.old) (O.failures output.old)
        (P.written report.old) (P.failures report.old))
        (outlets (O.written output.new) (O.failures output.new)
        (P.written report.new) (P.failures report.new))) }
{
    if output.open().is_err() {
        let fault = without_output(&mut work, if_none, CommandFault::CannotCreate);
        return Err(fault);
    }
    let (_answer, lines) = work.write(output)?;
    if output.flush().is_err() {
        return Err(CommandFault::CannotWrite);
    }
    match report.write_all(lines.as_slice()) {
        Ok(()) => Ok(()),
        Err(_) => Err(CommandFault::CannotWrite),
    }
}

/// Does the work, holds in memory what it writes, and opens the output once that was done: nothing
/// goes out of a work that fails.
///
/// # Errors
///
/// The fault of the work, or `OutOfMemory`; then `CannotCreate` if the output could not be opened:
/// it took nothing. `CannotWrite` if it failed: it keeps what it took. Last, `CannotWrite` if the
/// report failed.
pub fn write_held<O: Outlet, K: Work + Drop, P: Sink>(
    alloc: Global,
    output: &mut O,
    mut work: K,
    report: &mut P,
) -> Result<(), CommandFault>
    ensures written { OnOk result (PutsOut (Held (K.writes work)) (K.tells work)
        (outlets (O.written output.old) (O.failures output.old)
        (P.written report.old) (P.failures report.old))
        (outlets (O.written output.new) (O.failures output.new)
        (P.written report.new) (P.failures report.new))) }
    ensures handed_on { OnOk result (O.handed_on output.new ≡ O.written output.new) }
    ensures failed { IfErr result (FailsOut (Held (K.writes work)) (FailsHeld (K.fails work))
        (K.tells work) (CouldBeDone (K.writes work)) (CouldBeDone (K.writes work))
        (outlets (O.written output.old) (O.failures output.old)
        (P.written report.old) (P.failures report.old))
        (outlets (O.written output.new) (O.failures output.new)
        (P.written report.new) (P.failures report.new))) }
    ensures whole { IfErr result (λ fault. fault ≢ CannotWrite
        → O.written output.new ≡ O.written output.old) }
{
    let mut held = MemorySink::new(alloc);
    let lines = match work.write(&mut held) {
        Ok((_answer, lines)) => lines,
        Err(CommandFault::CannotWrite) => return Err(CommandFault::OutOfMemory),
        Err(fault) => return Err(fault),
    };
    if output.open().is_err() {
        return Err(CommandFault::CannotCreate);
    }
    if output.write_all(held.as_slice()).is_err() || output.flush().is_err() {
        return Err(CommandFault::CannotWrite);
    }
    match report.write_all(lines.as_slice()) {
        Ok(()) => Ok(()),
        Err(_) => Err(CommandFault::CannotWrite),
    }
}
