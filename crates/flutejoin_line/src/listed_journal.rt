//! A journal, of which a list of objects may be meant.
ghost use Rattle.std.specs.Prelude.{MatchResult};
ghost use Rattle.flutejoin_line.specs.CommandLine.{IsListedJournal, list_words};
ghost use Rattle.flutejoin_line.specs.Inputs.{IsTwice};
ghost use Rattle.flutejoin_line.specs.Options.{found_rows};

use crate::inputs::standard_once;
use crate::words::{text, word};
use clap::ArgMatches;
use flutejoin::CommandFault;

/// `journal`; if there is a file `list`, only the objects count that its lines begin with.
#[derive(Clone, Copy)]
pub struct ListedJournal<'a> {
    pub journal: &'a str,
    pub list: Option<&'a str>,
}

/// The journal J, and the file of `--list`.
///
/// # Errors
///
/// `StandardInputTwice` if both are standard input.
pub fn listed_journal<'a>(matches: &ArgMatches<'a>) -> Result<ListedJournal<'a>, CommandFault>
    ensures { let rows = found_rows matches.now in
        MatchResult result (IsListedJournal rows) (IsTwice (list_words rows)) }
{
    let journal = text(matches, "J");
    standard_once(&[text(matches, "list"), journal])?;
    Ok(ListedJournal {
        journal,
        list: word(matches, "list"),
    })
}
