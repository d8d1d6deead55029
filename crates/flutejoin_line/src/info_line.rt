//! The line of `info`, of one object or of a list of them.
ghost use Rattle.std.specs.Prelude.{◌≡◌, IfOk, MatchResult, None, Some, codes};
ghost use Rattle.clap.specs.Walk.{first_of};
ghost use Rattle.flutejoin_line.specs.CommandLine.{IsLine, info_rules};
ghost use Rattle.flutejoin_line.specs.LineFaults.{IsKeyFault, IsListFault, IsNumbersFault};
ghost use Rattle.flutejoin_line.specs.Options.{HasSource, IsFormFault, first_unfit, found_rows};
ghost use Rattle.flutejoin_line.specs.Options.{info_form, info_options, list_form};
ghost use Rattle.flutejoin_line.specs.Parser.{IsCommand};

use crate::arguments::{
    ANY_SIZE, BLOCK, FORCE, INSTANCE, JOURNAL, OBJECT, SESSION, SOURCE, SYMBOL, force, input,
    long_flag, option, output,
};
use crate::help_texts::INFO_HELP;
use crate::inputs::standard_once;
use crate::limit::{Limit, limit_of};
use crate::line::Line;
use crate::numbers::{number_below, number_if, source};
use crate::objects::key;
use crate::parser::command_with;
use crate::target::{Target, journal_target};
use crate::words::{given, text};
use clap::{ArgMatches, Command};
use flute_parts::{Info, Key, Sender};
use flutejoin::CommandFault;
use std::alloc::{AllocError, Global};

/// Write `journal` with this information of the object `key` added to a journal.
#[derive(Clone, Copy)]
pub struct InfoLine<'a> {
    pub target: Target<'a>,
    pub limit: Limit,
    pub key: Key,
    pub info: Info,
    pub journal: &'a str,
}

/// Write `journal`, with the information in the lines of the file `list` added, to a journal.
#[derive(Clone, Copy)]
pub struct InfoListLine<'a> {
    pub target: Target<'a>,
    pub limit: Limit,
    pub list: &'a str,
    pub journal: &'a str,
}

/// The command, as the parser takes it.
pub fn info_command<'a>(alloc: Global) -> Result<Command<'a>, AllocError>
    ensures { IfOk result (IsCommand (codes "info") info_rules) }
{
    let arguments = vec![in alloc;
        output(alloc),
        force(alloc, FORCE),
        long_flag(alloc, "any-size", ANY_SIZE),
        option(
            alloc,
            "list",
            "LINES",
            "A file of lines as `show` prints them for information; - is standard input",
        ),
        option(alloc, "source", "ADDRESS", SOURCE),
        option(alloc, "tsi", "N", SESSION),
        option(alloc, "toi", "N", OBJECT),
        option(alloc, "fdt", "N", INSTANCE),
        option(
            alloc,
            "length",
            "N",
            "The transfer length: how many bytes the object has",
        ),
        option(alloc, "symbol", "N", SYMBOL),
        option(alloc, "block", "N", BLOCK),
        input(alloc, "J", JOURNAL),
    ]?;
    command_with(
        alloc,
        "info",
        "Writes a journal with an object's transmission information added",
        INFO_HELP,
        arguments,
    )
}

/// The line of `info` of a list.
///
/// # Errors
///
/// `BadOption` if an option does not go with `--list`; `StandardInputTwice` if both `list` and the
/// journal are standard input.
pub fn info_list<'a>(matches: &ArgMatches<'a>, list: &'a str) -> Result<Line<'a>, CommandFault>
    requires { first_of (codes "list") (found_rows matches.now) ≡ Some list.now }
    ensures { let rows = found_rows matches.now in
        MatchResult result (IsLine (codes "info") rows) (IsListFault rows) }
{
    let without_object = [
        ("source", 0),
        ("tsi", 0),
        ("toi", 0),
        ("fdt", 0),
        ("length", 0),
        ("symbol", 0),
        ("block", 0),
    ];
    given(matches, &without_object)?;
    let journal = text(matches, "J");
    standard_once(&[list, journal])?;
    Ok(Line::InfoList(InfoListLine {
        target: journal_target(matches),
        limit: limit_of(matches),
        list,
        journal,
    }))
}

/// The line of `info` of one object.
///
/// # Errors
///
/// `MissingOption` if an option is left out, `BadOption` if it is given more often than once;
/// `BadNumber`, `BadSource`, `BadKey` and `BadInformation` as `line_of` has them.
pub fn info_one<'a>(matches: &ArgMatches<'a>) -> Result<Line<'a>, CommandFault>
    requires { first_of (codes "list") (found_rows matches.now) ≡ None }
    ensures { let rows = found_rows matches.now in
        MatchResult result (IsLine (codes "info") rows) (IsNumbersFault rows) }
{
    let with_numbers = [
        ("tsi", 1),
        ("toi", 1),
        ("length", 1),
        ("symbol", 1),
        ("block", 1),
    ];
    given(matches, &with_numbers)?;
    let tsi = number_below(matches, "tsi", 1 << 48)? as u64;
    let toi = number_below(matches, "toi", 1 << 112)?;
    let instance = number_if(matches, "fdt", 1 << 20)?;
    let length = number_below(matches, "length", 1 << 64)? as u64;
    let symbol = number_below(matches, "symbol", 1 << 16)? as u16;
    let block = number_below(matches, "block", 1 << 32)? as u32;
    let sender = source(matches)?.unwrap_or(Sender::new(0));
    let key = key(sender, tsi, toi, instance)?;
    let info = match Info::new(length, symbol, block) {
        Ok(info) => info,
        Err(fault) => return Err(CommandFault::BadInformation(fault)),
    };
    Ok(Line::Info(InfoLine {
        target: journal_target(matches),
        limit: limit_of(matches),
        key,
        info,
        journal: text(matches, "J"),
    }))
}
