//! The commands of the program, as the parser of the command line takes them.
ghost use Rattle.std.specs.Prelude.{◌≡◌, List, IfOk, codes};
ghost use Rattle.std.specs.List.{AllZip};
ghost use Rattle.clap.specs.Simple.{app_of};
ghost use Rattle.clap.specs.Walk.{Rule};
ghost use Rattle.flutejoin_line.specs.CommandLine.{program};
ghost use Rattle.flutejoin_line.specs.Parser.{IsArgument, IsCommand};

use crate::carousel_line::carousel_command;
use crate::compare_line::compare_command;
use crate::extract_line::extract_command;
use crate::fill_line::fill_command;
use crate::forget_line::forget_command;
use crate::gaps_line::gaps_command;
use crate::help_texts::PROGRAM_HELP;
use crate::info_line::info_command;
use crate::join_words::join_command;
use crate::merge_line::merge_command;
use crate::minus_line::minus_command;
use crate::packet_line::packet_command;
use crate::show_line::show_command;
use clap::{Arg, Command};
use std::alloc::{AllocError, Global};

/// What `--version` prints after the number: which journals are read and written.
const VERSION: &str = "\
0.2.0
Journals of versions 1 and 2 are read, and those of version 2 written.";

/// The program's command, with a subcommand for each of its commands.
pub fn command<'a>(alloc: Global) -> Result<Command<'a>, AllocError>
    ensures { IfOk result (λ command. app_of command ≡ program) }
{
    let command = Command::new(alloc, "flutejoin")
        .version("0.2.0")
        .long_version(VERSION)
        .about("Reads FLUTE version 2 datagrams (RFC 6726), and journals of what was received")
        .after_help(PROGRAM_HELP)
        .no_binary_name(true)
        .bin_name("flutejoin")?
        .subcommand_required(true)
        .arg_required_else_help(true)
        .subcommand(packet_command(alloc)?)?
        .subcommand(show_command(alloc)?)?
        .subcommand(gaps_command(alloc)?)?
        .subcommand(compare_command(alloc)?)?
        .subcommand(extract_command(alloc)?)?
        .subcommand(info_command(alloc)?)?
        .subcommand(join_command(alloc)?)?
        .subcommand(merge_command(alloc)?)?
        .subcommand(minus_command(alloc)?)?
        .subcommand(fill_command(alloc)?)?
        .subcommand(forget_command(alloc)?)?
        .subcommand(carousel_command(alloc)?)?;
    Ok(command)
}

/// A command with these texts and arguments.
pub fn command_with<'a>(
    alloc: Global,
    name: &'a str,
    about: &'a str,
    after_help: &'a str,
    arguments: Vec<Arg<'a>>,
) -> Result<Command<'a>, AllocError>
    ensures { (rules : List Rule) → AllZip IsArgument rules arguments.entry.items
        → IfOk result (IsCommand name.entry.now rules) }
{
    let command = Command::new(alloc, name)
        .about(about)
        .after_help(after_help)
        .args(arguments)?;
    Ok(command)
}
