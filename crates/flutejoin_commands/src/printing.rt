//! `gaps` to an outlet, within the limits of its line; and what is printed is handed on.
ghost use Rattle.std.specs.Prelude.{◌≡◌, ◌≢◌, ◌⊎◌, ◌<◌, ◌≤◌, ◌+◌, ◌||◌, [], Some, Err, OnOk, OnErr};
ghost use Rattle.std.specs.Prelude.{IfOk, IfErr, not};
ghost use Rattle.std.specs.Io.KnownBytes.{Appends, IsAtEnd};
ghost use Rattle.flute_parts.specs.Devices.{AppendsPart};
ghost use Rattle.flutejoin.specs.Gaps.{ListsJournal, GapsFail};
ghost use Rattle.flutejoin.specs.Packet.{write_failures};
ghost use Rattle.flutejoin.specs.declared.command_fault.CommandFault.TheVariants.{CannotWrite};
ghost use Rattle.flutejoin.specs.declared.command_fault.CommandFault.TheVariants.{NotAllWhole};
ghost use Rattle.flutejoin.specs.Styles.{are_whole, passes_check, printed};
ghost use Rattle.flutejoin_commands.specs.Prints.{FailsToFlush, IfPrinted, IsHandedOn};
ghost use Rattle.flutejoin_commands.specs.Works.{most_of};

use crate::outlet::Outlet;
use flute_parts::{Sink, Source};
use flutejoin::{
    ANY_OBJECTS, ANY_SESSIONS, ANY_SYMBOLS, Aside, CommandFault, MAX_OBJECTS, MAX_SESSIONS,
    MAX_SYMBOLS, Picks, Style, gaps_from,
};
use flutejoin_line::Limit;
use std::alloc::Global;

/// How `gaps` lists a journal.
#[derive(Clone, Copy)]
pub struct Listing {
    pub limit: Limit,
    pub style: Style,
}

/// Prints what is listed of the objects of the picked entries of a journal, as [`gaps_from`] writes
/// it, and hands it on. The lines are put aside as `lines` and `gap_lines`, which are empty at
/// first.
///
/// # Errors
///
/// Those of [`gaps_from`]; or `CannotWrite` if all was written and not handed on; or last, if the
/// style asks for a check, `NotAllWhole`: all was handed on, and not all objects that are listed
/// are whole.
pub fn gaps_on<R: Source, C: Picks, A: Aside, P: Outlet>(
    alloc: Global,
    listing: Listing,
    source: &mut R,
    picks: &C,
    lines: &mut A,
    gap_lines: &mut A,
    report: &mut P,
) -> Result<(), CommandFault>
    ensures listed { A.written lines.old ≡ Some [] → A.written gap_lines.old ≡ Some []
        → IfPrinted result (λ passes. ListsJournal (most_of listing.limit) (C.picks picks.now)
        (R.unread source.old)
        (λ objects. Appends (P.written report.old) (P.written report.new)
        (printed listing.style objects)
        × (passes_check listing.style objects ≡ passes))) }
    ensures failed { IfErr result (λ fault. (fault ≡ NotAllWhole)
        ⊎ ((GapsFail (most_of listing.limit) (R.unread source.old) (R.unread source.new) fault
        ⊎ FailsToFlush (IsAtEnd (R.unread source.new)) fault)
        × (fault ≢ CannotWrite → P.written report.new ≡ P.written report.old))) }
    ensures part { A.written lines.old ≡ Some [] → A.written gap_lines.old ≡ Some []
        → IfErr result (λ fault. fault ≡ CannotWrite
        → (P.written report.new ≡ P.written report.old)
        ⊎ (ListsJournal (most_of listing.limit) (C.picks picks.now) (R.unread source.old)
        (λ objects. AppendsPart (P.written report.old) (P.written report.new)
        (printed listing.style objects))
        ⊎ ListsJournal (most_of listing.limit) (C.picks picks.now) (R.unread source.old)
        (λ objects. Appends (P.written report.old) (P.written report.new)
        (printed listing.style objects)))) }
    ensures handed_on { IfPrinted result (λ passes.
        P.handed_on report.new ≡ P.written report.new) }
    ensures quiet { IfPrinted result (λ passes.
        A.failures lines.new + A.failures gap_lines.new + P.failures report.new
        ≡ A.failures lines.old + A.failures gap_lines.old + P.failures report.old) }
    ensures cause { IfErr result (λ fault. fault ≡ CannotWrite
        → A.failures lines.old + A.failures gap_lines.old + P.failures report.old
        < A.failures lines.new + A.failures gap_lines.new + P.failures report.new) }
{
    let style = listing.style;
    match list_gaps(alloc, listing, source, picks, lines, gap_lines, report) {
        Ok(all_whole) => {
            hand_on(report, Ok(()))?;
            checked(style, all_whole)
        }
        Err(fault) => hand_on(report, Err(fault)),
    }
}

// Calls `gaps_from` with the limits of the line: any size, or what a store would hold.
fn list_gaps<R: Source, C: Picks, A: Aside, W: Sink>(
    alloc: Global,
    listing: Listing,
    source: &mut R,
    picks: &C,
    lines: &mut A,
    gap_lines: &mut A,
    sink: &mut W,
) -> Result<bool, CommandFault>
    ensures printed { A.written lines.old ≡ Some [] → A.written gap_lines.old ≡ Some []
        → IfOk result (λ all_whole. ListsJournal (most_of listing.limit) (C.picks picks.now)
        (R.unread source.old)
        (λ objects. Appends (W.written sink.old) (W.written sink.new)
        (printed listing.style objects)
        × (all_whole ≡ are_whole listing.style objects))) }
    ensures end { OnOk result (IsAtEnd (R.unread source.new)) }
    ensures failed { IfErr result
        (GapsFail (most_of listing.limit) (R.unread source.old) (R.unread source.new)) }
    ensures part { A.written lines.old ≡ Some [] → A.written gap_lines.old ≡ Some []
        → IfErr result (λ fault. fault ≡ CannotWrite → (sink.new ≡ sink.old)
        ⊎ ListsJournal (most_of listing.limit) (C.picks picks.now) (R.unread source.old)
        (λ objects. AppendsPart (W.written sink.old) (W.written sink.new)
        (printed listing.style objects))) }
    ensures kept { IfErr result (λ fault. fault ≢ CannotWrite → sink.new ≡ sink.old) }
    ensures failures { A.failures lines.new + A.failures gap_lines.new + W.failures sink.new
        ≡ A.failures lines.old + A.failures gap_lines.old + W.failures sink.old
        + write_failures result }
{
    let Listing { limit, style } = listing;
    match limit {
        Limit::AnySize => gaps_from::<ANY_SESSIONS, ANY_OBJECTS, ANY_SYMBOLS, _, _, _, _>(
            alloc, source, picks, style, lines, gap_lines, sink,
        ),
        Limit::Shelf => gaps_from::<MAX_SESSIONS, MAX_OBJECTS, MAX_SYMBOLS, _, _, _, _>(
            alloc, source, picks, style, lines, gap_lines, sink,
        ),
    }
}

// What is returned after all was handed on.
fn checked(style: Style, all_whole: bool) -> Result<(), CommandFault>
    ensures passes { IfPrinted result (λ passes. (not style.check || all_whole) ≡ passes) }
    ensures fault { IfErr result (λ fault. fault ≡ NotAllWhole) }
{
    if style.check && !all_whole {
        Err(CommandFault::NotAllWhole)
    } else {
        Ok(())
    }
}

/// Hands on what was printed.
///
/// # Errors
///
/// The fault of the work, which comes first; `CannotWrite` if the report failed.
pub fn hand_on<P: Outlet>(
    report: &mut P,
    done: Result<(), CommandFault>,
) -> Result<(), CommandFault>
    ensures same { P.written report.new ≡ P.written report.old }
    ensures first { IfErr done (λ fault. result ≡ Err fault) }
    ensures after { OnOk done (IfErr result (λ fault. fault ≡ CannotWrite)) }
    ensures counted { P.failures report.old ≤ P.failures report.new }
    ensures quiet { OnOk result (P.failures report.new ≡ P.failures report.old) }
    ensures cause { OnOk done (OnErr result (P.failures report.old < P.failures report.new)) }
    ensures flushed { IsHandedOn (P.failures report.old) (P.failures report.new)
        (P.written report.new) (P.handed_on report.new) }
{
    let flushed = report.flush();
    done?;
    match flushed {
        Ok(()) => Ok(()),
        Err(_) => Err(CommandFault::CannotWrite),
    }
}
