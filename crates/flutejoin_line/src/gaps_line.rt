//! The line of `gaps`: its arguments, its record, and how that is read.
ghost use Rattle.std.specs.Prelude.{IfOk, MatchResult, codes};
ghost use Rattle.flutejoin_line.specs.CommandLine.{IsLine, gaps_rules};
ghost use Rattle.flutejoin_line.specs.LineFaults.{IsListedFault};
ghost use Rattle.flutejoin_line.specs.Options.{found_rows};
ghost use Rattle.flutejoin_line.specs.Parser.{IsCommand};

use crate::arguments::{
    ANY_SIZE, INSTANCE, JOURNAL, JSON, LISTED, OBJECT, SOURCE, input, long_flag, option,
    session_list,
};
use crate::form::form_of;
use crate::help_texts::GAPS_HELP;
use crate::limit::{Limit, limit_of};
use crate::line::Line;
use crate::listed_journal::{ListedJournal, listed_journal};
use crate::parser::command_with;
use crate::selection_options::selection;
use crate::words::flag;
use clap::{ArgMatches, Command};
use flute_streams::Selection;
use flutejoin::{CommandFault, Style};
use std::alloc::{AllocError, Global};

/// Print how much of each selected object a journal has, or of a list of its objects, and what is
/// missing, in this style.
#[derive(Clone, Copy)]
pub struct GapsLine<'a> {
    pub limit: Limit,
    pub selection: Selection,
    pub style: Style,
    pub inputs: ListedJournal<'a>,
}

/// The command, as the parser takes it.
pub fn gaps_command<'a>(alloc: Global) -> Result<Command<'a>, AllocError>
    ensures { IfOk result (IsCommand (codes "gaps") gaps_rules) }
{
    let arguments = vec![in alloc;
        long_flag(alloc, "any-size", ANY_SIZE),
        option(alloc, "list", "KEYS", LISTED),
        long_flag(
            alloc,
            "check",
            "End with status 1 if an object that is listed is not whole",
        ),
        long_flag(
            alloc,
            "summary",
            "A line for each session: how many of its objects are whole, and what the others lack",
        ),
        long_flag(
            alloc,
            "conflicts",
            "Only objects with conflicting information or symbols, and no other gaps",
        ),
        long_flag(
            alloc,
            "ranges",
            "The byte ranges of an object that are not held, in place of its gaps",
        ),
        long_flag(alloc, "json", JSON),
        option(alloc, "source", "ADDRESS", SOURCE),
        session_list(alloc),
        option(alloc, "toi", "N", OBJECT),
        option(alloc, "fdt", "N", INSTANCE),
        input(alloc, "J", JOURNAL),
    ]?;
    command_with(
        alloc,
        "gaps",
        "Prints how much of each object a journal has, and which symbols are missing",
        GAPS_HELP,
        arguments,
    )
}

/// The line of `gaps`.
///
/// # Errors
///
/// Those of `selection`, and of `listed_journal`.
pub fn gaps_of<'a>(matches: &ArgMatches<'a>) -> Result<Line<'a>, CommandFault>
    ensures { let rows = found_rows matches.now in
        MatchResult result (IsLine (codes "gaps") rows) (IsListedFault rows) }
{
    let mut selection = selection(matches)?;
    let style = Style {
        check: flag(matches, "check"),
        summary: flag(matches, "summary"),
        conflicts: selection.conflicts,
        ranges: flag(matches, "ranges"),
        form: form_of(matches),
    };
    // An object is listed by all its entries, and not by those in conflict alone.
    selection.conflicts = false;
    let inputs = listed_journal(matches)?;
    Ok(Line::Gaps(GapsLine {
        limit: limit_of(matches),
        selection,
        style,
        inputs,
    }))
}
