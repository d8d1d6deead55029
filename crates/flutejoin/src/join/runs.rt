//! Runs: journals that were put aside.
ghost use Rattle.std.specs.Prelude.{◌≡◌, true, ◌≤◌, ◌+◌, ◌++◌, List, length, OnOk, IfErr};
ghost use Rattle.std.specs.Prelude.{ℕ, Some};
ghost use Rattle.std.specs.List.{AllByRecursion};
ghost use Rattle.flute_parts.specs.declared.fact.Fact.{Fact};
ghost use Rattle.flute_journal.specs.Journal.{Journal};
ghost use Rattle.flutejoin.specs.declared.command_fault.CommandFault.TheVariants.{CannotPutAside};
ghost use Rattle.flutejoin.specs.Asides.{AreRunsOf, HoldTogether, IsNewRun, Makes, PutsAside};

use crate::aside::Asides;
use crate::command_fault::CommandFault;
use flute_parts::Source;
use flute_streams::{OwnedJournalStream, merge_all};
use std::alloc::Global;

/// How many runs there may be: with what is in memory and 64 inputs they are 128 streams, which a
/// join reads fast. Before there are more, they are merged into one.
pub(crate) const MAX_RUNS: usize = 63;

/// The greatest number of entries of a run: 2^57.
const MAX_RUN: u64 = 144_115_188_075_855_872;

/// Merges runs into one if they are more than this.
///
/// # Errors
///
/// `CannotPutAside`. The runs are of no further use then.
pub(crate) fn merge_beyond<R: Source + Drop, A: Asides<Input = R>>(
    alloc: Global,
    asides: &mut A,
    most: usize,
    runs: &mut Vec<OwnedJournalStream<R>>,
) -> Result<(), CommandFault>
    requires few { length runs.old.items ≤ 64 }
    requires some { 1 ≤ most }
    requires new { AllByRecursion (IsNewRun R.unread R.buffered R.failures) runs.old.items }
    ensures few { OnOk result (length runs.new.items ≤ most) }
    ensures new { OnOk result (AllByRecursion (IsNewRun R.unread R.buffered R.failures)
        runs.new.items) }
    ensures held { A.tells asides.old ≡ true → (facts : List Fact)
        → AreRunsOf R.unread R.buffered runs.old.items facts
        → OnOk result (HoldTogether R.unread R.buffered runs.new.items facts) }
    ensures failed { IfErr result (λ fault. fault ≡ CannotPutAside) }
    ensures same_tells { A.tells asides.new ≡ A.tells asides.old }
    ensures made { Makes (A.made asides.old) (A.made asides.new) result }
    ensures put { OnOk result (PutsAside (A.made asides.old) (A.made asides.new) runs.old.items
        runs.new.items) }
{
    if runs.len() <= most {
        return Ok(());
    }
    let Ok(mut aside) = asides.aside() else {
        return Err(CommandFault::CannotPutAside);
    };
    let mut all = &mut runs[..];
    // `within` is not used, so the limits are 0, and nothing is counted
    match merge_all::<0, 0, 0, _, _>(alloc, &mut all, &mut aside) {
        Ok(merged) => {
            runs.clear();
            add_run(asides, aside, merged.entries, runs)
        }
        Err(_) => Err(CommandFault::CannotPutAside),
    }
}

/// Adds the run of a journal that was put aside, of so many entries.
///
/// # Errors
///
/// `CannotPutAside`.
pub(crate) fn add_run<R: Source + Drop, A: Asides<Input = R>>(
    asides: &mut A,
    aside: A::Aside,
    entries: u64,
    runs: &mut Vec<OwnedJournalStream<R>>,
) -> Result<(), CommandFault>
    requires new { AllByRecursion (IsNewRun R.unread R.buffered R.failures) runs.old.items }
    ensures more { OnOk result (length runs.new.items ≡ length runs.old.items + 1) }
    ensures new { OnOk result (AllByRecursion (IsNewRun R.unread R.buffered R.failures)
        runs.new.items) }
    ensures held { (bytes : List ℕ) (own facts : List Fact)
        → A.Aside.written aside ≡ Some bytes → (journal : Journal bytes own)
        → entries ≡ length journal.0
        → AreRunsOf R.unread R.buffered runs.old.items facts
        → OnOk result (HoldTogether R.unread R.buffered runs.new.items (facts ++ own)) }
    ensures failed { IfErr result (λ fault. fault ≡ CannotPutAside) }
    ensures same_tells { A.tells asides.new ≡ A.tells asides.old }
    ensures same_made { A.made asides.new ≡ A.made asides.old }
{
    if entries > MAX_RUN {
        return Err(CommandFault::CannotPutAside);
    }
    let Ok(source) = asides.again(aside) else {
        return Err(CommandFault::CannotPutAside);
    };
    match runs.push(OwnedJournalStream::new(source, entries)) {
        Ok(()) => Ok(()),
        Err(_) => Err(CommandFault::CannotPutAside),
    }
}
