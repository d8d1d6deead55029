//! The line of `carousel`: its arguments, its record, and how that is read.
ghost use Rattle.std.specs.Prelude.{IfOk, MatchResult, codes};
ghost use Rattle.flutejoin_line.specs.CommandLine.{IsLine, carousel_rules};
ghost use Rattle.flutejoin_line.specs.LineFaults.{IsKeyFault};
ghost use Rattle.flutejoin_line.specs.Options.{IsZero, carousel_options, found_rows};
ghost use Rattle.flutejoin_line.specs.Parser.{IsCommand};

use crate::arguments::{
    BLOCK, FORCE_ALL, INSTANCE, OBJECT, SESSION, SYMBOL, force, input, option, output,
};
use crate::help_texts::CAROUSEL_HELP;
use crate::line::Line;
use crate::numbers::{number_below, number_if};
use crate::objects::key;
use crate::parser::command_with;
use crate::target::{Target, other_target};
use crate::words::text;
use clap::{ArgMatches, Command};
use flute_parts::{Key, Sender};
use flutejoin::CommandFault;
use std::alloc::{AllocError, Global};

/// Write the datagrams of the object `key`, whose content is `file`, to a datagram file.
#[derive(Clone, Copy)]
pub struct CarouselLine<'a> {
    pub target: Target<'a>,
    pub key: Key,
    pub symbol: u16,
    pub block: u32,
    pub file: &'a str,
}

/// The command, as the parser takes it.
pub fn carousel_command<'a>(alloc: Global) -> Result<Command<'a>, AllocError>
    ensures { IfOk result (IsCommand (codes "carousel") carousel_rules) }
{
    let arguments = vec![in alloc;
        output(alloc),
        force(alloc, FORCE_ALL),
        option(alloc, "tsi", "N", SESSION).required(true),
        option(alloc, "toi", "N", OBJECT).required(true),
        option(alloc, "fdt", "N", INSTANCE),
        option(alloc, "symbol", "N", SYMBOL).required(true),
        option(alloc, "block", "N", BLOCK).required(true),
        input(alloc, "FILE", "The content of the object"),
    ]?;
    command_with(
        alloc,
        "carousel",
        "Writes the datagrams that send an object to a datagram file",
        CAROUSEL_HELP,
        arguments,
    )
}

/// The line of `carousel`.
///
/// # Errors
///
/// `BadNumber` and `BadKey` as `line_of` has them.
pub fn carousel_of<'a>(matches: &ArgMatches<'a>) -> Result<Line<'a>, CommandFault>
    ensures { let rows = found_rows matches.now in
        MatchResult result (IsLine (codes "carousel") rows)
        (IsKeyFault (carousel_options rows) IsZero rows) }
{
    let tsi = number_below(matches, "tsi", 1 << 48)? as u64;
    let toi = number_below(matches, "toi", 1 << 112)?;
    let instance = number_if(matches, "fdt", 1 << 20)?;
    let symbol = number_below(matches, "symbol", 1 << 16)? as u16;
    let block = number_below(matches, "block", 1 << 32)? as u32;
    let key = key(Sender::new(0), tsi, toi, instance)?;
    Ok(Line::Carousel(CarouselLine {
        target: other_target(matches),
        key,
        symbol,
        block,
        file: text(matches, "FILE"),
    }))
}
