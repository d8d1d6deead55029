//! The line of `extract`, of one object or of all.
ghost use Rattle.std.specs.Prelude.{◌≡◌, IfOk, MatchResult, None, codes, false, true};
ghost use Rattle.flutejoin_line.specs.CommandLine.{IsLine, extract_rules};
ghost use Rattle.flutejoin_line.specs.LineFaults.{IsAllFault, IsKeyFault, IsOneFault};
ghost use Rattle.flutejoin_line.specs.Options.{HasSource, IsFlag, IsFormFault, extract_form};
ghost use Rattle.flutejoin_line.specs.Options.{first_unfit, found_rows, key_options};
ghost use Rattle.flutejoin_line.specs.Parser.{IsCommand};

use crate::arguments::{
    ANY_SIZE, FORCE_ALL, INSTANCE, JOURNAL, LISTED, OBJECT, SOURCE, force, input, long_flag,
    option, output, session_list,
};
use crate::help_texts::EXTRACT_HELP;
use crate::limit::{Limit, limit_of};
use crate::line::Line;
use crate::listed_journal::{ListedJournal, listed_journal};
use crate::numbers::{number_below, number_if, sessions, source};
use crate::objects::key;
use crate::parser::command_with;
use crate::target::{Target, other_target};
use crate::words::{flag, given, text};
use clap::{ArgMatches, Command};
use flute_parts::{Key, Sender};
use flutejoin::{CommandFault, Picked};
use std::alloc::{AllocError, Global};

/// Write the object `key` of `journal` to a file.
#[derive(Clone, Copy)]
pub struct ExtractLine<'a> {
    pub target: Target<'a>,
    pub limit: Limit,
    pub key: Key,
    pub journal: &'a str,
}

/// Write each whole object of those that are picked of a journal, or of a list of its objects, to a
/// file of the new folder `out`.
#[derive(Clone, Copy)]
pub struct ExtractAllLine<'a> {
    pub out: &'a str,
    pub limit: Limit,
    pub picked: Picked,
    pub inputs: ListedJournal<'a>,
}

/// The command, as the parser takes it.
pub fn extract_command<'a>(alloc: Global) -> Result<Command<'a>, AllocError>
    ensures { IfOk result (IsCommand (codes "extract") extract_rules) }
{
    let arguments = vec![in alloc;
        output(alloc),
        force(alloc, FORCE_ALL),
        long_flag(alloc, "any-size", ANY_SIZE),
        long_flag(
            alloc,
            "all",
            "Write each whole object to a file of OUT, a new folder; with --tsi up to 64 times",
        ),
        option(alloc, "list", "KEYS", LISTED),
        option(alloc, "source", "ADDRESS", SOURCE),
        session_list(alloc),
        option(alloc, "toi", "N", OBJECT),
        option(alloc, "fdt", "N", INSTANCE),
        input(alloc, "J", JOURNAL),
    ]?;
    command_with(
        alloc,
        "extract",
        "Writes an object that a journal has whole to a file",
        EXTRACT_HELP,
        arguments,
    )
}

/// The line of `extract --all`.
///
/// # Errors
///
/// `BadOption` if an option does not go with `--all`; `BadNumber` and `BadSource` as `line_of` has
/// them; last those of `listed_journal`.
pub fn extract_all<'a>(matches: &ArgMatches<'a>) -> Result<Line<'a>, CommandFault>
    requires { IsFlag (codes "all") (found_rows matches.now) true }
    ensures { let rows = found_rows matches.now in
        MatchResult result (IsLine (codes "extract") rows) (IsAllFault rows) }
{
    given(matches, &[("toi", 0), ("fdt", 0)])?;
    if flag(matches, "force") {
        return Err(CommandFault::BadOption("force"));
    }
    let sessions = sessions(matches)?;
    let sender = source(matches)?;
    let inputs = listed_journal(matches)?;
    Ok(Line::ExtractAll(ExtractAllLine {
        out: text(matches, "OUT"),
        limit: limit_of(matches),
        picked: Picked { sender, sessions },
        inputs,
    }))
}

/// The line of `extract` of one object.
///
/// # Errors
///
/// `MissingOption` if an option is left out, `BadOption` if it is given more often than once or
/// does not go with one object; `BadNumber`, `BadSource` and `BadKey` as `line_of` has them.
pub fn extract_one<'a>(matches: &ArgMatches<'a>) -> Result<Line<'a>, CommandFault>
    requires { IsFlag (codes "all") (found_rows matches.now) false }
    ensures { let rows = found_rows matches.now in
        MatchResult result (IsLine (codes "extract") rows) (IsOneFault rows) }
{
    given(matches, &[("tsi", 1), ("toi", 1), ("list", 0)])?;
    let tsi = number_below(matches, "tsi", 1 << 48)? as u64;
    let toi = number_below(matches, "toi", 1 << 112)?;
    let instance = number_if(matches, "fdt", 1 << 20)?;
    let sender = source(matches)?.unwrap_or(Sender::new(0));
    let key = key(sender, tsi, toi, instance)?;
    Ok(Line::Extract(ExtractLine {
        target: other_target(matches),
        limit: limit_of(matches),
        key,
        journal: text(matches, "J"),
    }))
}
