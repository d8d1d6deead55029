//! Arguments that several commands have, and what the help says of them.
ghost use Rattle.std.specs.Prelude.{codes};
ghost use Rattle.flutejoin_line.specs.Parser.{IsArgument, force_flag, long_flag, option, out};
ghost use Rattle.flutejoin_line.specs.Parser.{place, session_list};

use clap::{Arg, ArgAction};
use std::alloc::Global;

/// What is told of the journal that is read.
pub const JOURNAL: &str = "The journal; - is standard input";

/// What is told of `--force` if OUT may be a journal or the input without it.
pub const FORCE: &str = "Write OUT even if it is a datagram file";

/// What is told of `--force` if OUT may be none of these without it.
pub const FORCE_ALL: &str = "Write OUT even if it is a datagram file, a journal or the input";

/// What is told of `--any-size`, which lifts the limits of a store.
pub const ANY_SIZE: &str = "Take in more sessions, objects and symbols than a store holds";

/// What is told of `--any-size` where these limits do not apply.
pub const UNLIMITED: &str = "Taken as by the other commands: the limits of a store do not apply";

/// What is told of `--conflicts` if it selects entries.
pub const CONFLICTS: &str = "Only symbols and information of which two values were told";

/// What is told of `--list` if it is of objects.
pub const LISTED: &str = "\
Only objects that the lines of this file begin with; - is standard input";

/// What is told of `--json`.
pub const JSON: &str = "An object of JSON a line, in ASCII";

/// What is told of `--source`: the sender of datagram files, or of an object.
pub const SOURCE: &str = "\
The sender's address, as 10.0.0.1, 2001:db8::1 or its 8 or 32 hexadecimal digits; left out, it \
is ::, and not 0.0.0.0 (but any sender with `show`, `gaps`, \
`forget` and `extract --all`)";

/// What is told of `--tsi` if it is given once.
pub const SESSION: &str = "The session, by its Transport Session Identifier";

/// What is told of `--toi`.
pub const OBJECT: &str = "The object, by its Transport Object Identifier: 0 for an FDT Instance";

/// What is told of `--fdt`.
pub const INSTANCE: &str = "The FDT Instance ID, with --toi 0 alone";

/// What is told of `--symbol` if it is a length.
pub const SYMBOL: &str = "The encoding symbol length, in bytes";

/// What is told of `--block`.
pub const BLOCK: &str = "The maximum source block length, in symbols";

/// What is told of `--memory`.
pub const MEMORY: &str = "\
Hold at most SIZE bytes of datagram files in memory, 256M by default: the rest is put aside in a \
file without a name beside OUT, or in TMPDIR for `-o -`";

/// A word at its place.
pub fn input<'a>(alloc: Global, name: &'a str, help: &'a str) -> Arg<'a>
    ensures { IsArgument (place name.entry.now) result }
{
    Arg::new(alloc, name)
        .required(true)
        .action(ArgAction::Set)
        .help(help)
}

/// The file that is written.
pub fn output<'a>(alloc: Global) -> Arg<'a>
    ensures { IsArgument out result }
{
    input(
        alloc,
        "OUT",
        "The file that is written; - is standard output",
    )
    .short('o')
}

/// The flag with which OUT is written whatever it is.
pub fn force<'a>(alloc: Global, help: &'a str) -> Arg<'a>
    ensures { IsArgument force_flag result }
{
    Arg::new(alloc, "force")
        .short('f')
        .long("force")
        .action(ArgAction::SetTrue)
        .help(help)
}

/// A flag that has no short name.
pub fn long_flag<'a>(alloc: Global, name: &'a str, help: &'a str) -> Arg<'a>
    ensures { IsArgument (long_flag name.entry.now) result }
{
    Arg::new(alloc, name)
        .long(name)
        .action(ArgAction::SetTrue)
        .help(help)
}

/// The sessions that are taken.
pub fn session_list<'a>(alloc: Global) -> Arg<'a>
    ensures { IsArgument session_list result }
{
    option(
        alloc,
        "tsi",
        "N",
        "A session that is taken; up to 64 times; left out, all are",
    )
    .action(ArgAction::Append)
}

/// An option with one value, which the help names so.
pub fn option<'a>(alloc: Global, name: &'a str, value_name: &'a str, help: &'a str) -> Arg<'a>
    ensures { IsArgument (option name.entry.now) result }
{
    Arg::new(alloc, name)
        .long(name)
        .value_name(value_name)
        .action(ArgAction::Set)
        .help(help)
}
