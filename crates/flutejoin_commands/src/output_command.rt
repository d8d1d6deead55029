//! `write_into`: does a work into a file that becomes OUT, and reports.
ghost use Rattle.std.specs.Prelude.{◌≡◌, option_map, OnOk, IfErr};
ghost use Rattle.flute_output.specs.Entries.{found_in, named_in};
ghost use Rattle.flutejoin_commands.specs.Commands.{Succeeds, Fails, FailsWriting, IsWholeAlways};
ghost use Rattle.flutejoin_commands.specs.Commands.{CouldBeDone, WasWholeAlways};
ghost use Rattle.flutejoin_commands.specs.Commands.{devices, with_beside};

use crate::begun_output::{Begun, BegunOutput};
use crate::no_output::{IfNoOutput, without_output};
use crate::work::Work;
use flute_output::{FinishFault, Folder, Output};
use flute_parts::Sink;
use flutejoin::CommandFault;
use std::marker::{Brand, PhantomData};

/// Does the work, and leaves what it wrote as the file OUT, and its lines in the report. OUT may be
/// a file that the work reads. The folder is given back.
///
/// # Errors
///
/// The fault of the work, which comes first; `CannotCreate` if the output could not be made, as
/// [`without_output`] says; `CannotWrite` if only it could not be written or put in its
/// place. OUT is then as it was, the file beside it is gone, unless the folder failed to remove it,
/// and nothing is reported. `NotOnDisk` if OUT is the new file, but the disk did not confirm that
/// it has this name: nothing is reported either. Last, `CannotWrite` if the report failed: OUT is
/// the new file then.
pub fn write_into<F: Folder + Drop, K: Work + Drop, P: Sink>(
    folder: F,
    mut work: K,
    if_none: IfNoOutput,
    report: &mut P,
) -> (Result<(), CommandFault>, F)
    ensures succeeded { OnOk result.0 (Succeeds (K.writes work) (K.tells work)
        (with_beside (devices (F.entries folder) (F.failures folder)
        (P.written report.old) (P.failures report.old)))
        (devices (F.entries result.1) (F.failures result.1)
        (P.written report.new) (P.failures report.new))) }
    ensures failed { IfErr result.0 (Fails (K.writes work) (K.fails work) (K.tells work)
        (if_none ≡ IfNoOutput.Try → CouldBeDone (K.writes work))
        (devices (F.entries folder) (F.failures folder)
        (P.written report.old) (P.failures report.old))
        (devices (F.entries result.1) (F.failures result.1)
        (P.written report.new) (P.failures report.new))) }
    ensures any_moment { IsWholeAlways (F.entries folder) (F.entries result.1) }
{
    match Output::create(folder) {
        Ok(output) => write_created::<F, K, P, Brand>(output, work, report),
        Err(folder) => {
            let fault = without_output(&mut work, if_none, CommandFault::CannotCreate);
            (Err(fault), folder)
        }
    }
}

// Does the work with an output that was made.
fn write_created<F: Folder + Drop, K: Work + Drop, P: Sink, B: Begun>(
    output: Output<F>,
    mut work: K,
    report: &mut P,
) -> (Result<(), CommandFault>, F)
    requires found { option_map found_in (F.entries output) ≡ B.found }
    requires named { option_map named_in (F.entries output) ≡ B.named }
    requires since { B.failures ≡ F.failures output }
    ensures succeeded { OnOk result.0 (Succeeds (K.writes work) (K.tells work)
        (devices (F.entries output) (F.failures output)
        (P.written report.old) (P.failures report.old))
        (devices (F.entries result.1) (F.failures result.1)
        (P.written report.new) (P.failures report.new))) }
    ensures failed { IfErr result.0 (FailsWriting (K.writes work) (K.fails work) (K.tells work)
        (devices (F.entries output) (F.failures output)
        (P.written report.old) (P.failures report.old))
        (devices (F.entries result.1) (F.failures result.1)
        (P.written report.new) (P.failures report.new))) }
    ensures any_moment { WasWholeAlways (F.entries output) (F.entries result.1) }
{
    let mut begun = BegunOutput {
        output,
        of: PhantomData::<B>,
    };
    let written = work.write(&mut begun);
    let (done, folder) = begun.output.finish(written);
    match done {
        Ok((_answer, lines)) => {
            let told = report.write_all(lines.as_slice());
            (told.map_err(|_| CommandFault::CannotWrite), folder)
        }
        Err(FinishFault::Work(fault)) => (Err(fault), folder),
        Err(FinishFault::Write) => (Err(CommandFault::CannotWrite), folder),
        Err(FinishFault::NotOnDisk) => (Err(CommandFault::NotOnDisk), folder),
    }
}
