//! `--any-size`: how much a command takes in.
ghost use Rattle.flutejoin_line.specs.CommandLine.{IsLimit};
ghost use Rattle.flutejoin_line.specs.Options.{found_rows};

use crate::words::flag;
use clap::ArgMatches;

/// How many sessions, objects and symbols a command takes in.
#[derive(Clone, Copy, Debug, PartialEq, Eq)]
pub enum Limit {
    /// As many sessions, objects and symbols as a [`Shelf`](flute_store::Shelf) holds.
    Shelf,
    /// More than a store of the program holds.
    AnySize,
}

/// What `--any-size` says.
pub fn limit_of(matches: &ArgMatches<'_>) -> Limit
    ensures { IsLimit (found_rows matches.now) result }
{
    if flag(matches, "any-size") {
        Limit::AnySize
    } else {
        Limit::Shelf
    }
}
