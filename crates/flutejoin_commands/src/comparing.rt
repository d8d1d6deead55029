//! `compare_on`: prints how two journals differ to an outlet, and hands that on.
ghost use Rattle.std.specs.Prelude.{◌≡◌, ◌≢◌, ◌⊎◌, ◌<◌, ◌+◌, ◌||◌, [], Some, IfErr, not};
ghost use Rattle.std.specs.Io.KnownBytes.{Appends};
ghost use Rattle.flute_parts.specs.Devices.{AppendsPart};
ghost use Rattle.flutejoin.specs.Compare.{ComparesJournals};
ghost use Rattle.flutejoin.specs.CompareLines.{compared, passes_check};
ghost use Rattle.flutejoin.specs.Merge.{MergeFails};
ghost use Rattle.flutejoin.specs.declared.command_fault.CommandFault.TheVariants.{CannotWrite};
ghost use Rattle.flutejoin.specs.declared.command_fault.CommandFault.TheVariants.{ValuesDiffer};
ghost use Rattle.flutejoin_commands.specs.Prints.{IfCompared};

use crate::outlet::Outlet;
use crate::printing::hand_on;
use flute_parts::Source;
use flutejoin::{Aside, CommandFault, CompareInput, CompareStyle, compare_from};
use std::alloc::Global;

/// Prints how what is selected of two journals differs, as [`compare_from`] writes it, and hands it
/// on. The lines are put aside as `lines`, which is empty at first.
///
/// # Errors
///
/// Those of [`compare_from`]; or `CannotWrite` if all was written and not handed on; or last, if
/// the style asks for a check, `ValuesDiffer`: all was handed on, and something differs.
pub fn compare_on<Q: Source, R: Source, A: Aside, P: Outlet>(
    alloc: Global,
    first: &mut CompareInput<Q>,
    second: &mut CompareInput<R>,
    style: CompareStyle,
    lines: &mut A,
    report: &mut P,
) -> Result<(), CommandFault>
    ensures compared { A.written lines.old ≡ Some [] → IfCompared result (λ passes.
        ComparesJournals first.old.choice second.old.choice
        (Q.unread first.old.stream.source) (R.unread second.old.stream.source)
        (λ rows. Appends (P.written report.old) (P.written report.new) (compared style rows)
        × (passes_check style rows ≡ passes))) }
    ensures failed { IfErr result (λ fault. (fault ≡ ValuesDiffer)
        ⊎ (MergeFails (Q.unread first.old.stream.source) (R.unread second.old.stream.source) fault
        × (fault ≢ CannotWrite → P.written report.new ≡ P.written report.old))) }
    ensures part { A.written lines.old ≡ Some [] → IfErr result (λ fault. fault ≡ CannotWrite
        → (P.written report.new ≡ P.written report.old)
        ⊎ ComparesJournals first.old.choice second.old.choice
        (Q.unread first.old.stream.source) (R.unread second.old.stream.source)
        (λ rows. AppendsPart (P.written report.old) (P.written report.new) (compared style rows)
        ⊎ Appends (P.written report.old) (P.written report.new) (compared style rows))) }
    ensures handed_on { IfCompared result (λ passes.
        P.handed_on report.new ≡ P.written report.new) }
    ensures quiet { IfCompared result (λ passes. A.failures lines.new + P.failures report.new
        ≡ A.failures lines.old + P.failures report.old) }
    ensures cause { IfErr result (λ fault. fault ≡ CannotWrite
        → A.failures lines.old + P.failures report.old
        < A.failures lines.new + P.failures report.new) }
{
    match compare_from(alloc, first, second, style, lines, report) {
        Ok(same) => {
            hand_on(report, Ok(()))?;
            checked(style, same)
        }
        Err(fault) => hand_on(report, Err(fault)),
    }
}

// What is returned after all was handed on.
fn checked(style: CompareStyle, same: bool) -> Result<(), CommandFault>
    ensures passes { IfCompared result (λ passes. (not style.check || same) ≡ passes) }
    ensures fault { IfErr result (λ fault. fault ≡ ValuesDiffer) }
{
    if style.check && !same {
        Err(CommandFault::ValuesDiffer)
    } else {
        Ok(())
    }
}
