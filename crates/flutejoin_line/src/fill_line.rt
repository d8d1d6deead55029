//! The line of `fill`: its arguments, its record, and how that is read.
ghost use Rattle.std.specs.Prelude.{◌≡◌, IfOk, MatchResult, codes};
ghost use Rattle.flutejoin_line.specs.CommandLine.{IsLine, asking_by, fill_rules};
ghost use Rattle.flutejoin_line.specs.LineFaults.{IsFillFault};
ghost use Rattle.flutejoin_line.specs.Options.{found_rows};
ghost use Rattle.flutejoin_line.specs.Parser.{IsCommand};

use crate::arguments::{FORCE, UNLIMITED, force, input, long_flag, option, output};
use crate::help_texts::FILL_HELP;
use crate::inputs::standard_once;
use crate::line::Line;
use crate::pair::is_out_one_of;
use crate::parser::command_with;
use crate::target::{Target, journal_target};
use crate::words::{flag, given, text};
use clap::{ArgMatches, Command};
use flutejoin::{Asking, CommandFault};
use std::alloc::{AllocError, Global};

/// Write the entries of `journal` that the lines of the file `gaps` ask for to a journal.
#[derive(Clone, Copy)]
pub struct FillLine<'a> {
    pub target: Target<'a>,
    pub asking: Asking,
    pub gaps: &'a str,
    pub journal: &'a str,
}

/// The command, as the parser takes it.
pub fn fill_command<'a>(alloc: Global) -> Result<Command<'a>, AllocError>
    ensures { IfOk result (IsCommand (codes "fill") fill_rules) }
{
    let arguments = vec![in alloc;
        output(alloc),
        force(alloc, FORCE),
        long_flag(alloc, "any-size", UNLIMITED),
        option(
            alloc,
            "gaps",
            "LINES",
            "A file of lines as `gaps` prints them of another journal; - is standard input",
        ),
        long_flag(
            alloc,
            "only",
            "Write only what the lines name as missing, and information that they lack",
        ),
        input(alloc, "J", "The journal of which entries are written"),
    ]?;
    command_with(
        alloc,
        "fill",
        "Writes what another journal lacks, by the lines of `gaps`",
        FILL_HELP,
        arguments,
    )
}

/// The line of `fill`.
///
/// # Errors
///
/// `MissingOption` if `--gaps` is left out, `BadOption` if it is given more often than once;
/// `StandardInputTwice` if both inputs are standard input; `OutputIsInput` if OUT is one of them.
pub fn fill_of<'a>(matches: &ArgMatches<'a>) -> Result<Line<'a>, CommandFault>
    ensures { let rows = found_rows matches.now in
        MatchResult result (IsLine (codes "fill") rows) (IsFillFault rows) }
{
    given(matches, &[("gaps", 1)])?;
    let gaps = text(matches, "gaps");
    let journal = text(matches, "J");
    standard_once(&[gaps, journal])?;
    if is_out_one_of(matches, journal, gaps) {
        return Err(CommandFault::OutputIsInput);
    }
    Ok(Line::Fill(FillLine {
        target: journal_target(matches),
        asking: asking(flag(matches, "only")),
        gaps,
        journal,
    }))
}

// What is asked for, by `--only`.
fn asking(only: bool) -> Asking
    ensures { result ≡ asking_by only }
{
    if only { Asking::Only } else { Asking::All }
}
