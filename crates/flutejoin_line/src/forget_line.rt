//! The line of `forget`, of all objects or of a list of them.
ghost use Rattle.std.specs.Prelude.{◌≡◌, IfOk, MatchResult, None, Some, codes};
ghost use Rattle.clap.specs.Walk.{first_of};
ghost use Rattle.flutejoin_line.specs.CommandLine.{IsLine, forget_rules};
ghost use Rattle.flutejoin_line.specs.LineFaults.{IsForgetFault, IsForgetListFault};
ghost use Rattle.flutejoin_line.specs.Options.{found_rows};
ghost use Rattle.flutejoin_line.specs.Parser.{IsCommand};
ghost use Rattle.flutejoin_line.specs.Selecting.{IsChoiceFault};

use crate::arguments::{
    CONFLICTS, FORCE, INSTANCE, JOURNAL, LISTED, OBJECT, SOURCE, UNLIMITED, force, input,
    long_flag, option, output, session_list,
};
use crate::help_texts::FORGET_HELP;
use crate::inputs::standard_once;
use crate::line::Line;
use crate::parser::command_with;
use crate::selection_options::selection;
use crate::target::{Target, journal_target};
use crate::words::{text, word};
use clap::{ArgMatches, Command};
use flute_streams::Selection;
use flutejoin::CommandFault;
use std::alloc::{AllocError, Global};

/// Write the entries of `journal` that are not selected to a journal.
#[derive(Clone, Copy)]
pub struct ForgetLine<'a> {
    pub target: Target<'a>,
    pub selection: Selection,
    pub journal: &'a str,
}

/// Write the entries of a journal that are not selected, or whose objects are not in a list, to a
/// journal.
#[derive(Clone, Copy)]
pub struct ForgetListLine<'a> {
    pub target: Target<'a>,
    pub selection: Selection,
    pub inputs: ListedInputs<'a>,
}

/// `journal`, and the file `list`, whose lines begin with names of objects.
#[derive(Clone, Copy)]
pub struct ListedInputs<'a> {
    pub list: &'a str,
    pub journal: &'a str,
}

/// The command, as the parser takes it.
pub fn forget_command<'a>(alloc: Global) -> Result<Command<'a>, AllocError>
    ensures { IfOk result (IsCommand (codes "forget") forget_rules) }
{
    let arguments = vec![in alloc;
        output(alloc),
        force(alloc, FORCE),
        long_flag(alloc, "any-size", UNLIMITED),
        option(alloc, "list", "KEYS", LISTED),
        long_flag(alloc, "conflicts", CONFLICTS),
        option(alloc, "source", "ADDRESS", SOURCE),
        session_list(alloc),
        option(alloc, "toi", "N", OBJECT),
        option(alloc, "fdt", "N", INSTANCE),
        option(
            alloc,
            "symbol",
            "BLOCK/SYMBOL",
            "Only the symbol of this source block number and encoding symbol ID, as 0/17",
        ),
        long_flag(alloc, "info", "Only the information of objects"),
        input(alloc, "J", JOURNAL),
    ]?;
    command_with(
        alloc,
        "forget",
        "Writes a journal without the entries that are chosen",
        FORGET_HELP,
        arguments,
    )
}

/// The line of `forget`.
///
/// # Errors
///
/// `BadNumber`, `BadSource` and `BadKey` as `line_of` has them; `StandardInputTwice` if both the
/// list and the journal are standard input; `MissingChoice` if there is no list, and nothing is
/// said of what to forget.
pub fn forget_of<'a>(matches: &ArgMatches<'a>) -> Result<Line<'a>, CommandFault>
    ensures { let rows = found_rows matches.now in
        MatchResult result (IsLine (codes "forget") rows) (IsForgetFault rows) }
{
    match word(matches, "list") {
        Some(list) => forget_list(matches, list),
        None => forget_all(matches),
    }
}

// The line of `forget` of a list.
fn forget_list<'a>(matches: &ArgMatches<'a>, list: &'a str) -> Result<Line<'a>, CommandFault>
    requires { first_of (codes "list") (found_rows matches.now) ≡ Some list.now }
    ensures { let rows = found_rows matches.now in
        MatchResult result (IsLine (codes "forget") rows) (IsForgetListFault rows) }
{
    let selection = selection(matches)?;
    let journal = text(matches, "J");
    standard_once(&[list, journal])?;
    Ok(Line::ForgetList(ForgetListLine {
        target: journal_target(matches),
        selection,
        inputs: ListedInputs { list, journal },
    }))
}

// The line of `forget` of all objects.
fn forget_all<'a>(matches: &ArgMatches<'a>) -> Result<Line<'a>, CommandFault>
    requires { first_of (codes "list") (found_rows matches.now) ≡ None }
    ensures { let rows = found_rows matches.now in
        MatchResult result (IsLine (codes "forget") rows) (IsChoiceFault rows) }
{
    let selection = selection(matches)?;
    if selection.is_all() {
        return Err(CommandFault::MissingChoice);
    }
    Ok(Line::Forget(ForgetLine {
        target: journal_target(matches),
        selection,
        journal: text(matches, "J"),
    }))
}
