//! The two journals that a command names.
ghost use Rattle.std.specs.Prelude.{◌≡◌, MatchResult, false};
ghost use Rattle.flutejoin_line.specs.CommandLine.{IsPair, is_out_among, is_out_an_input};
ghost use Rattle.flutejoin_line.specs.LineFaults.{IsOutFault, IsPairFault};
ghost use Rattle.flutejoin_line.specs.Options.{found_rows};

use crate::inputs::{STANDARD, standard_once};
use crate::words::text;
use clap::ArgMatches;
use flutejoin::CommandFault;

/// Two journals, by their words.
#[derive(Clone, Copy)]
pub struct Pair<'a> {
    pub first: &'a str,
    pub second: &'a str,
}

/// The two journals A and B of a command that prints.
///
/// # Errors
///
/// `StandardInputTwice` if both are standard input.
pub fn pair_of<'a>(matches: &ArgMatches<'a>) -> Result<Pair<'a>, CommandFault>
    ensures { let rows = found_rows matches.now in
        MatchResult result (λ pair. IsPair rows pair.first pair.second) (IsPairFault rows) }
{
    let first = text(matches, "A");
    let second = text(matches, "B");
    standard_once(&[first, second])?;
    Ok(Pair { first, second })
}

/// The two journals A and B of a command that writes OUT.
///
/// # Errors
///
/// As of `pair_of`; `OutputIsInput` if OUT is one of them.
pub fn pair_beside_out<'a>(matches: &ArgMatches<'a>) -> Result<Pair<'a>, CommandFault>
    ensures { let rows = found_rows matches.now in
        MatchResult result (λ pair. IsPair rows pair.first pair.second
        × (is_out_an_input rows ≡ false)) (IsOutFault rows) }
{
    let pair = pair_of(matches)?;
    if is_out_one_of(matches, pair.first, pair.second) {
        return Err(CommandFault::OutputIsInput);
    }
    Ok(pair)
}

/// Whether OUT is the same word as one of two inputs, and not standard output.
pub fn is_out_one_of(matches: &ArgMatches<'_>, first: &str, second: &str) -> bool
    ensures { result ≡ is_out_among (found_rows matches.now) first.now second.now }
{
    let out = text(matches, "OUT");
    out != STANDARD && (out == first || out == second)
}
