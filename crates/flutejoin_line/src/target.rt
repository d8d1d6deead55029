//! The output that a command names, and whether it may overwrite a file.
ghost use Rattle.flutejoin.specs.OutputGuard.{overwrites_journal, overwrites_other};
ghost use Rattle.flutejoin_line.specs.CommandLine.{IsTarget};
ghost use Rattle.flutejoin_line.specs.Options.{found_rows};

use crate::words::{flag, text};
use clap::ArgMatches;
use flutejoin::Overwrites;

/// The output of a command that writes a file.
#[derive(Clone, Copy)]
pub struct Target<'a> {
    /// Its name.
    pub out: &'a str,
    /// What it overwrites of what is there.
    pub overwrites: Overwrites,
}

/// The target of a command that writes a journal.
pub fn journal_target<'a>(matches: &ArgMatches<'a>) -> Target<'a>
    ensures { IsTarget overwrites_journal (found_rows matches.now) result }
{
    Target {
        out: text(matches, "OUT"),
        overwrites: Overwrites::of_journal(flag(matches, "force")),
    }
}

/// The target of a command that writes something else.
pub fn other_target<'a>(matches: &ArgMatches<'a>) -> Target<'a>
    ensures { IsTarget overwrites_other (found_rows matches.now) result }
{
    Target {
        out: text(matches, "OUT"),
        overwrites: Overwrites::of_other(flag(matches, "force")),
    }
}
