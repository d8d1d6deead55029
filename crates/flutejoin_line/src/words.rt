//! Takes what the parser found for an argument.
ghost use Rattle.std.specs.Prelude.{◌≡◌, MatchResult, None, option_map};
ghost use Rattle.clap.specs.Walk.{first_of};
ghost use Rattle.flutejoin_line.specs.Options.{IsFlag, IsFormFault, first_unfit, form_of};
ghost use Rattle.flutejoin_line.specs.Options.{found_rows, word};

use clap::ArgMatches;
use flutejoin::CommandFault;

/// The word after the option, or at the place, that has this name.
pub fn word<'a>(matches: &ArgMatches<'a>, id: &str) -> Option<&'a str>
    ensures { option_map (λ text. text.now) result ≡ first_of id.now (found_rows matches.now) }
{
    matches.get_str(id)
}

/// The word after the option, or at the place, that has this name; the empty text if there is none.
pub fn text<'a>(matches: &ArgMatches<'a>, id: &str) -> &'a str
    ensures { result.now ≡ word id.now (found_rows matches.now) }
{
    word(matches, id).unwrap_or("")
}

/// Tests that each of these options is given so often.
///
/// # Errors
///
/// With the first that is given more or less often, `MissingOption` if it is not given at all, or
/// else `BadOption`.
pub fn given(
    matches: &ArgMatches<'_>,
    options: &[(&'static str, usize)],
) -> Result<(), CommandFault>
    ensures { let rows = found_rows matches.now in
        let form = form_of options.now in
        MatchResult result (λ _. first_unfit form rows ≡ None)
        (IsFormFault form (λ _. ⊥) rows) }
{
    for option in options {
        let (name, times) = *option;
        let given = matches.get_strs(name).unwrap_or(&[]).len();
        if given != times {
            if given == 0 {
                return Err(CommandFault::MissingOption(name));
            }
            return Err(CommandFault::BadOption(name));
        }
    }
    Ok(())
}

/// Whether the flag that has this name is set.
pub fn flag(matches: &ArgMatches<'_>, id: &str) -> bool
    ensures { IsFlag id.now (found_rows matches.now) result }
{
    matches.get_flag(id)
}
