//! The line of `merge`: its arguments, its record, and how that is read.
ghost use Rattle.std.specs.Prelude.{IfOk, MatchResult, codes};
ghost use Rattle.flutejoin_line.specs.CommandLine.{IsLine, merge_rules};
ghost use Rattle.flutejoin_line.specs.LineFaults.{IsOutFault};
ghost use Rattle.flutejoin_line.specs.Options.{found_rows};
ghost use Rattle.flutejoin_line.specs.Parser.{IsCommand};

use crate::arguments::{FORCE, UNLIMITED, force, input, long_flag, output};
use crate::help_texts::MERGE_HELP;
use crate::line::Line;
use crate::pair::{Pair, pair_beside_out};
use crate::parser::command_with;
use crate::target::{Target, journal_target};
use clap::{ArgMatches, Command};
use flutejoin::CommandFault;
use std::alloc::{AllocError, Global};

/// Merge the journals `a` and `b` into a journal.
#[derive(Clone, Copy)]
pub struct MergeLine<'a> {
    pub target: Target<'a>,
    pub a: &'a str,
    pub b: &'a str,
}

/// The command, as the parser takes it.
pub fn merge_command<'a>(alloc: Global) -> Result<Command<'a>, AllocError>
    ensures { IfOk result (IsCommand (codes "merge") merge_rules) }
{
    let arguments = vec![in alloc;
        output(alloc),
        force(alloc, FORCE),
        long_flag(alloc, "any-size", UNLIMITED),
        input(alloc, "A", "A journal"),
        input(alloc, "B", "Another journal"),
    ]?;
    command_with(
        alloc,
        "merge",
        "Merges two journals into one, entry by entry",
        MERGE_HELP,
        arguments,
    )
}

/// The line of `merge`.
///
/// # Errors
///
/// Those of `pair_beside_out`.
pub fn merge_of<'a>(matches: &ArgMatches<'a>) -> Result<Line<'a>, CommandFault>
    ensures { let rows = found_rows matches.now in
        MatchResult result (IsLine (codes "merge") rows) (IsOutFault rows) }
{
    let Pair { first, second } = pair_beside_out(matches)?;
    Ok(Line::Merge(MergeLine {
        target: journal_target(matches),
        a: first,
        b: second,
    }))
}
