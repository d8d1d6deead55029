//! `line_of`: reads the words after `flutejoin` as what the program is to do.
ghost use Rattle.std.specs.Prelude.{◌≡◌, [], IsSomeAnd, MatchResult, codes, map};
ghost use Rattle.std.specs.Prelude.{string_bytes, true};
ghost use Rattle.clap.specs.Simple.{subcommand_rows_of};
ghost use Rattle.flutejoin_line.specs.CommandLine.{IsLine, command_in, is_command, refusals_of};
ghost use Rattle.flutejoin_line.specs.LineFaults.{IsFault, IsFaultIn, IsFaultOf, IsLineIn};
ghost use Rattle.flutejoin_line.specs.LineFaults.{IsLineOf, IsRefusal};
ghost use Rattle.flutejoin_line.specs.Options.{found_rows};

use crate::carousel_line::{CarouselLine, carousel_of};
use crate::compare_line::{CompareLine, compare_of};
use crate::extract_line::{ExtractAllLine, ExtractLine, extract_all, extract_one};
use crate::fill_line::{FillLine, fill_of};
use crate::forget_line::{ForgetLine, ForgetListLine, forget_of};
use crate::gaps_line::{GapsLine, gaps_of};
use crate::info_line::{InfoLine, InfoListLine, info_list, info_one};
use crate::join_line::JoinLine;
use crate::join_words::join_of;
use crate::merge_line::{MergeLine, merge_of};
use crate::minus_line::{MinusLine, minus_of};
use crate::packet_line::{PacketLine, packet_of};
use crate::parser::command;
use crate::show_line::{ShowLine, show_of};
use crate::words::{flag, word};
use clap::ArgMatches;
use clap::error::ErrorKind;
use flutejoin::CommandFault;
use std::alloc::Global;

/// What the program is to do. Its texts are words of the command line.
#[derive(Drop)]
pub enum Line<'a> {
    Packet(PacketLine<'a>),
    Show(ShowLine<'a>),
    Gaps(GapsLine<'a>),
    Compare(CompareLine<'a>),
    Extract(ExtractLine<'a>),
    ExtractAll(ExtractAllLine<'a>),
    Info(InfoLine<'a>),
    InfoList(InfoListLine<'a>),
    Join(JoinLine<'a>),
    Merge(MergeLine<'a>),
    Minus(MinusLine<'a>),
    Fill(FillLine<'a>),
    Forget(ForgetLine<'a>),
    ForgetList(ForgetListLine<'a>),
    Carousel(CarouselLine<'a>),
}

/// Reads the words after the program's name.
///
/// # Errors
///
/// `CommandLine` with the parser's text if that refuses the words, or if they ask for help or
/// the version; with the first option that does not fit the form of `extract`, `info` or `fill`,
/// `MissingOption` if it is left out, or else `BadOption`; `BadNumber` with the first option, in
/// the order `--tsi`, `--toi`, `--fdt`, `--length`, `--symbol`, `--block`, `--memory`, that is not
/// a number of its range, or with `--tsi` if `join` has it more than 64 times; `BadSource` if
/// `--source` is neither 32 or 8 hexadecimal digits nor an address; `BadKey` if `--fdt` does not go
/// with `--toi`; `BadInformation` if the numbers of `info` are no transmission information;
/// `MissingChoice` if `forget` is not told what; `TooManyInputs` if `join` has more than 64 inputs;
/// `StandardInputTwice` if two inputs are `-`; `OutputIsInput` if `merge`, `minus` or `fill` is to
/// write one of its inputs; and `OutOfMemory`.
pub fn line_of(alloc: Global, words: &[String]) -> Result<Line<'_>, CommandFault>
    ensures read { let texts = map string_bytes words.now in
        MatchResult result (IsLineIn texts) (IsFaultIn texts) }
{
    let command = command(alloc)?;
    let matches = match command.try_get_matches_from(words) {
        Ok(matches) => matches,
        Err(error) => match error.kind() {
            ErrorKind::OutOfMemory => return Err(CommandFault::OutOfMemory),
            _ => return Err(CommandFault::CommandLine(error)),
        },
    };
    match matches.subcommand() {
        Some((name, matches)) => line_by_name(alloc, name, matches),
        None => unreachable!(),
    }
}

// The line of the command with this name.
#[tactic(auto, unfolding(crate::specs::CommandLine::program))]
fn line_by_name<'a>(
    alloc: Global,
    name: &str,
    matches: &ArgMatches<'a>,
) -> Result<Line<'a>, CommandFault>
    requires { is_command name.now ≡ true }
    ensures { let rows = found_rows matches.now in
        MatchResult result (IsLine name.now rows) (IsFault name.now rows) }
{
    match name {
        "packet" => Ok(packet_of(matches)),
        "show" => show_of(matches),
        "gaps" => gaps_of(matches),
        "compare" => compare_of(matches),
        "extract" if flag(matches, "all") => extract_all(matches),
        "extract" => extract_one(matches),
        "info" => match word(matches, "list") {
            Some(list) => info_list(matches, list),
            None => info_one(matches),
        },
        "join" => join_of(alloc, matches),
        "merge" => merge_of(matches),
        "minus" => minus_of(matches),
        "fill" => fill_of(matches),
        "forget" => forget_of(matches),
        "carousel" => carousel_of(matches),
        _ => unreachable!(),
    }
}
