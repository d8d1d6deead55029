//! The line of `show`: its arguments, its record, and how that is read.
ghost use Rattle.std.specs.Prelude.{IfOk, MatchResult, codes};
ghost use Rattle.flutejoin_line.specs.CommandLine.{IsLine, show_rules};
ghost use Rattle.flutejoin_line.specs.LineFaults.{IsListedFault};
ghost use Rattle.flutejoin_line.specs.Options.{found_rows};
ghost use Rattle.flutejoin_line.specs.Parser.{IsCommand};

use crate::arguments::{
    CONFLICTS, INSTANCE, JOURNAL, JSON, LISTED, OBJECT, SOURCE, UNLIMITED, input, long_flag,
    option, session_list,
};
use crate::form::form_of;
use crate::help_texts::SHOW_HELP;
use crate::line::Line;
use crate::listed_journal::{ListedJournal, listed_journal};
use crate::parser::command_with;
use crate::selection_options::selection;
use crate::words::flag;
use clap::{ArgMatches, Command};
use flute_streams::Selection;
use flutejoin::{CommandFault, ShowStyle};
use std::alloc::{AllocError, Global};

/// Print the selected entries of a journal, or of a list of its objects, in this style.
#[derive(Clone, Copy)]
pub struct ShowLine<'a> {
    pub selection: Selection,
    pub style: ShowStyle,
    pub inputs: ListedJournal<'a>,
}

/// The command, as the parser takes it.
pub fn show_command<'a>(alloc: Global) -> Result<Command<'a>, AllocError>
    ensures { IfOk result (IsCommand (codes "show") show_rules) }
{
    let arguments = vec![in alloc;
        long_flag(alloc, "any-size", UNLIMITED),
        option(alloc, "list", "KEYS", LISTED),
        long_flag(
            alloc,
            "sums",
            "A sum in place of a symbol's bytes: the first 8 bytes of their SHA-256",
        ),
        long_flag(alloc, "json", JSON),
        long_flag(alloc, "conflicts", CONFLICTS),
        option(alloc, "source", "ADDRESS", SOURCE),
        session_list(alloc),
        option(alloc, "toi", "N", OBJECT),
        option(alloc, "fdt", "N", INSTANCE),
        input(alloc, "J", JOURNAL),
    ]?;
    command_with(
        alloc,
        "show",
        "Prints the entries of a journal, a line each",
        SHOW_HELP,
        arguments,
    )
}

/// The line of `show`.
///
/// # Errors
///
/// Those of `selection`, and of `listed_journal`.
pub fn show_of<'a>(matches: &ArgMatches<'a>) -> Result<Line<'a>, CommandFault>
    ensures { let rows = found_rows matches.now in
        MatchResult result (IsLine (codes "show") rows) (IsListedFault rows) }
{
    let selection = selection(matches)?;
    let style = ShowStyle {
        form: form_of(matches),
        sums: flag(matches, "sums"),
    };
    let inputs = listed_journal(matches)?;
    Ok(Line::Show(ShowLine {
        selection,
        style,
        inputs,
    }))
}
