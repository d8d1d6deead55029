//! The words of `join`: its arguments, and how its line is read of them.
ghost use Rattle.std.specs.Prelude.{IfOk, MatchResult, codes};
ghost use Rattle.flutejoin_line.specs.CommandLine.{IsLine, join_rules};
ghost use Rattle.flutejoin_line.specs.LineFaults.{IsJoinFault};
ghost use Rattle.flutejoin_line.specs.Options.{found_rows};
ghost use Rattle.flutejoin_line.specs.Parser.{IsCommand};

use crate::arguments::{
    ANY_SIZE, FORCE, INSTANCE, MEMORY, OBJECT, SOURCE, force, input, long_flag, option, output,
    session_list,
};
use crate::help_texts::JOIN_HELP;
use crate::inputs::standard_once_beside;
use crate::join_line::JoinLine;
use crate::limit::limit_of;
use crate::line::Line;
use crate::numbers::{number_if, sessions, source};
use crate::objects::object;
use crate::parser::command_with;
use crate::sizes::memory;
use crate::target::journal_target;
use crate::words::{flag, word};
use clap::{ArgAction, ArgMatches, Command};
use flute_parts::Sender;
use flute_streams::Scope;
use flutejoin::{CommandFault, MAX_INPUTS};
use std::alloc::{AllocError, Global};

/// The command, as the parser takes it.
pub fn join_command<'a>(alloc: Global) -> Result<Command<'a>, AllocError>
    ensures { IfOk result (IsCommand (codes "join") join_rules) }
{
    let arguments = vec![in alloc;
        output(alloc),
        force(alloc, FORCE),
        long_flag(alloc, "any-size", ANY_SIZE),
        option(alloc, "memory", "SIZE", MEMORY),
        option(alloc, "source", "ADDRESS", SOURCE),
        session_list(alloc),
        option(alloc, "toi", "N", OBJECT),
        option(alloc, "fdt", "N", INSTANCE),
        long_flag(alloc, "no-fdt", "No FDT Instances, which have the TOI 0"),
        option(
            alloc,
            "without",
            "KEYS",
            "No objects that the lines of this file begin with; - is standard input",
        ),
        long_flag(
            alloc,
            "reasons",
            "Also a line for each reason why datagrams are refused: how many of them",
        ),
        input(alloc, "INPUT", "Journals and datagram files, at most 64")
            .action(ArgAction::Append)
            .num_args(1..),
    ]?;
    command_with(
        alloc,
        "join",
        "Joins what several journals and datagram files have into one journal",
        JOIN_HELP,
        arguments,
    )
}

/// The line of `join`.
///
/// # Errors
///
/// `BadNumber`, `BadSource` and `BadKey` as `line_of` has them; `TooManyInputs`;
/// `StandardInputTwice`; `OutOfMemory`.
pub fn join_of<'a>(alloc: Global, matches: &ArgMatches<'a>) -> Result<Line<'a>, CommandFault>
    ensures { let rows = found_rows matches.now in
        MatchResult result (IsLine (codes "join") rows) (IsJoinFault rows) }
{
    let sessions = sessions(matches)?;
    let toi = number_if(matches, "toi", 1 << 112)?;
    let instance = number_if(matches, "fdt", 1 << 20)?;
    let memory = memory(matches)?;
    let sender = source(matches)?.unwrap_or(Sender::new(0));
    let object = object(toi, instance)?;
    let scope = Scope {
        sessions,
        object,
        files: flag(matches, "no-fdt"),
    };
    let without = word(matches, "without");
    let inputs = matches.get_strs("INPUT").unwrap_or(&[]);
    if inputs.len() > MAX_INPUTS {
        return Err(CommandFault::TooManyInputs);
    }
    standard_once_beside(without, inputs)?;
    Ok(Line::Join(JoinLine {
        target: journal_target(matches),
        limit: limit_of(matches),
        memory,
        sender,
        scope,
        without,
        reasons: flag(matches, "reasons"),
        inputs: inputs.to_vec(alloc)?,
    }))
}
