//! The line of `packet`: its argument, its record, and how that is read.
ghost use Rattle.std.specs.Prelude.{IfOk, codes};
ghost use Rattle.flutejoin_line.specs.CommandLine.{IsLine, packet_rules};
ghost use Rattle.flutejoin_line.specs.Options.{found_rows};
ghost use Rattle.flutejoin_line.specs.Parser.{IsCommand};

use crate::arguments::{JSON, input, long_flag};
use crate::form::form_of;
use crate::help_texts::PACKET_HELP;
use crate::line::Line;
use crate::parser::command_with;
use crate::words::text;
use clap::{ArgMatches, Command};
use flutejoin::Form;
use std::alloc::{AllocError, Global};

/// Print what the datagram `hex` says, in this form.
#[derive(Clone, Copy)]
pub struct PacketLine<'a> {
    pub form: Form,
    pub hex: &'a str,
}

/// The command, as the parser takes it.
pub fn packet_command<'a>(alloc: Global) -> Result<Command<'a>, AllocError>
    ensures { IfOk result (IsCommand (codes "packet") packet_rules) }
{
    let arguments = vec![in alloc;
        long_flag(alloc, "json", JSON),
        input(
            alloc,
            "HEX",
            "The datagram in hexadecimal digits, two for each byte",
        ),
    ]?;
    command_with(
        alloc,
        "packet",
        "Prints what one datagram says: its session, object, information and symbol",
        PACKET_HELP,
        arguments,
    )
}

/// The line of `packet`.
pub fn packet_of<'a>(matches: &ArgMatches<'a>) -> Line<'a>
    ensures { IsLine (codes "packet") (found_rows matches.now) result }
{
    Line::Packet(PacketLine {
        form: form_of(matches),
        hex: text(matches, "HEX"),
    })
}
