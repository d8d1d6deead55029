//! The line of `minus`: its arguments, its record, and how that is read.
ghost use Rattle.std.specs.Prelude.{IfOk, MatchResult, codes};
ghost use Rattle.flutejoin_line.specs.CommandLine.{IsLine, minus_rules};
ghost use Rattle.flutejoin_line.specs.LineFaults.{IsOutFault};
ghost use Rattle.flutejoin_line.specs.Options.{found_rows};
ghost use Rattle.flutejoin_line.specs.Parser.{IsCommand};

use crate::arguments::{FORCE, UNLIMITED, force, input, long_flag, output};
use crate::help_texts::MINUS_HELP;
use crate::line::Line;
use crate::pair::{Pair, pair_beside_out};
use crate::parser::command_with;
use crate::target::{Target, journal_target};
use clap::{ArgMatches, Command};
use flutejoin::CommandFault;
use std::alloc::{AllocError, Global};

/// Write the entries of the journal `first` that a join would change the journal `second` by to a
/// journal.
#[derive(Clone, Copy)]
pub struct MinusLine<'a> {
    pub target: Target<'a>,
    pub first: &'a str,
    pub second: &'a str,
}

/// The command, as the parser takes it.
pub fn minus_command<'a>(alloc: Global) -> Result<Command<'a>, AllocError>
    ensures { IfOk result (IsCommand (codes "minus") minus_rules) }
{
    let arguments = vec![in alloc;
        output(alloc),
        force(alloc, FORCE),
        long_flag(alloc, "any-size", UNLIMITED),
        input(alloc, "A", "The journal of which entries are written"),
        input(alloc, "B", "The journal that they would be joined into"),
    ]?;
    command_with(
        alloc,
        "minus",
        "Writes what a journal would add to another one",
        MINUS_HELP,
        arguments,
    )
}

/// The line of `minus`.
///
/// # Errors
///
/// Those of `pair_beside_out`.
pub fn minus_of<'a>(matches: &ArgMatches<'a>) -> Result<Line<'a>, CommandFault>
    ensures { let rows = found_rows matches.now in
        MatchResult result (IsLine (codes "minus") rows) (IsOutFault rows) }
{
    let Pair { first, second } = pair_beside_out(matches)?;
    Ok(Line::Minus(MinusLine {
        target: journal_target(matches),
        first,
        second,
    }))
}
