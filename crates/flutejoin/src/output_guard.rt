//! Whether a command may overwrite the file that is there.
ghost use Rattle.std.specs.Prelude.{◌≡◌, ◌≢◌, Err, IfErr, OnOk, is_ok, true, false};
ghost use Rattle.flute_journal.specs.Kinds.{HasKind, IsNeither};
ghost use Rattle.flute_journal.specs.declared.kind.Kind.TheVariants.{Journal, Datagrams};
ghost use Rattle.flutejoin.specs.OutputGuard.{IsKeptOutput, IsOverwritten};
ghost use Rattle.flutejoin.specs.OutputGuard.{overwrites_journal, overwrites_other};
ghost use Rattle.flutejoin.specs.OutputGuard.{spares};

use crate::command_fault::CommandFault;
use flute_journal::{Kind, kind_of};

/// Which files that are there a command overwrites with its output.
#[derive(Clone, Copy)]
pub enum Overwrites {
    /// Any file.
    Any,
    /// All but datagram files.
    Journals,
    /// All but datagram files, journals and the inputs of the command.
    OtherFiles,
}

impl Overwrites {
    /// What a command overwrites that writes a journal, with `--force` or without.
    pub fn of_journal(force: bool) -> Overwrites
        ensures { result ≡ overwrites_journal force }
    {
        if force {
            Overwrites::Any
        } else {
            Overwrites::Journals
        }
    }

    /// What a command overwrites that writes something else, with `--force` or without.
    pub fn of_other(force: bool) -> Overwrites
        ensures { result ≡ overwrites_other force }
    {
        if force {
            Overwrites::Any
        } else {
            Overwrites::OtherFiles
        }
    }

    /// Whether the bytes of an input are kept, if they would be lost by the output.
    pub fn spares_inputs(self) -> bool
        ensures { result ≡ spares self }
    {
        match self {
            Overwrites::Any => false,
            Overwrites::Journals | Overwrites::OtherFiles => true,
        }
    }

    /// Whether a file that begins with these bytes, four or all that it has, is overwritten.
    ///
    /// # Errors
    ///
    /// Why it is not: `OutputIsDatagrams` or `OutputIsJournal` by its first bytes, else
    /// `OutputIsInput`.
    pub fn check(self, first: &[u8], is_input: bool) -> Result<(), CommandFault>
        ensures any { self ≡ Overwrites.Any → is_ok result ≡ true }
        ensures datagrams { self ≢ Overwrites.Any → HasKind Datagrams first.now
            → result ≡ Err CommandFault.OutputIsDatagrams }
        ensures journal { self ≡ Overwrites.OtherFiles → HasKind Journal first.now
            → result ≡ Err CommandFault.OutputIsJournal }
        ensures input { self ≡ Overwrites.OtherFiles → IsNeither first.now → is_input ≡ true
            → result ≡ Err CommandFault.OutputIsInput }
        ensures journals { self ≡ Overwrites.Journals → ¬ HasKind Datagrams first.now
            → is_ok result ≡ true }
        ensures others { self ≡ Overwrites.OtherFiles → IsNeither first.now
            → is_input ≡ false → is_ok result ≡ true }
        ensures spared { OnOk result (IsOverwritten self first.now) }
        ensures kept { IfErr result IsKeptOutput }
    {
        match self {
            Overwrites::Any => Ok(()),
            Overwrites::Journals => match kind_of(first) {
                Some(Kind::Datagrams) => Err(CommandFault::OutputIsDatagrams),
                Some(Kind::Journal) => Ok(()),
                None => Ok(()),
            },
            Overwrites::OtherFiles => match kind_of(first) {
                Some(Kind::Datagrams) => Err(CommandFault::OutputIsDatagrams),
                Some(Kind::Journal) => Err(CommandFault::OutputIsJournal),
                None if is_input => Err(CommandFault::OutputIsInput),
                None => Ok(()),
            },
        }
    }
}
