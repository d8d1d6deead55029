//! `--json`: the form in which a command prints.
ghost use Rattle.flutejoin_line.specs.CommandLine.{IsForm};
ghost use Rattle.flutejoin_line.specs.Options.{found_rows};

use crate::words::flag;
use clap::ArgMatches;
use flutejoin::Form;

/// What `--json` says.
pub fn form_of(matches: &ArgMatches<'_>) -> Form
    ensures { IsForm (found_rows matches.now) result }
{
    if flag(matches, "json") {
        Form::Json
    } else {
        Form::Plain
    }
}
