//! The line of `compare`: its arguments, its record, and how that is read.
ghost use Rattle.std.specs.Prelude.{IfOk, MatchResult, codes};
ghost use Rattle.flutejoin_line.specs.CommandLine.{IsLine, compare_rules};
ghost use Rattle.flutejoin_line.specs.LineFaults.{IsCompareFault};
ghost use Rattle.flutejoin_line.specs.Options.{found_rows};
ghost use Rattle.flutejoin_line.specs.Parser.{IsCommand};

use crate::arguments::{
    INSTANCE, JSON, OBJECT, SOURCE, UNLIMITED, input, long_flag, option, session_list,
};
use crate::form::form_of;
use crate::help_texts::COMPARE_HELP;
use crate::line::Line;
use crate::pair::{Pair, pair_of};
use crate::parser::command_with;
use crate::selection_options::selection;
use crate::words::flag;
use clap::{ArgMatches, Command};
use flute_streams::Selection;
use flutejoin::{CommandFault, CompareStyle};
use std::alloc::{AllocError, Global};

/// Print how the journals `first` and `second` differ in each selected object, in this style.
#[derive(Clone, Copy)]
pub struct CompareLine<'a> {
    pub selection: Selection,
    pub style: CompareStyle,
    pub first: &'a str,
    pub second: &'a str,
}

/// The command, as the parser takes it.
pub fn compare_command<'a>(alloc: Global) -> Result<Command<'a>, AllocError>
    ensures { IfOk result (IsCommand (codes "compare") compare_rules) }
{
    let arguments = vec![in alloc;
        long_flag(alloc, "any-size", UNLIMITED),
        long_flag(
            alloc,
            "check",
            "End with status 1 if anything that is listed differs",
        ),
        long_flag(
            alloc,
            "summary",
            "A line for each session: the sums of its objects",
        ),
        long_flag(alloc, "json", JSON),
        option(alloc, "source", "ADDRESS", SOURCE),
        session_list(alloc),
        option(alloc, "toi", "N", OBJECT),
        option(alloc, "fdt", "N", INSTANCE),
        input(alloc, "A", "A journal"),
        input(alloc, "B", "Another journal"),
    ]?;
    command_with(
        alloc,
        "compare",
        "Prints how two journals differ, object by object",
        COMPARE_HELP,
        arguments,
    )
}

/// The line of `compare`.
///
/// # Errors
///
/// Those of `selection`, and of `pair_of`.
pub fn compare_of<'a>(matches: &ArgMatches<'a>) -> Result<Line<'a>, CommandFault>
    ensures { let rows = found_rows matches.now in
        MatchResult result (IsLine (codes "compare") rows) (IsCompareFault rows) }
{
    let selection = selection(matches)?;
    let Pair { first, second } = pair_of(matches)?;
    let style = CompareStyle {
        check: flag(matches, "check"),
        summary: flag(matches, "summary"),
        form: form_of(matches),
    };
    Ok(Line::Compare(CompareLine {
        selection,
        style,
        first,
        second,
    }))
}
