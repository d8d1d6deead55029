//! Tests that `-`, standard input, is at most one of a command's inputs.
ghost use Rattle.std.specs.Prelude.{◌≡◌, ◌++◌, MatchResult, false, map, option_map};
ghost use Rattle.flutejoin_line.specs.Inputs.{IsTwice, is_standard_twice, word_if};

use flutejoin::CommandFault;

/// The word for standard output as an output, and for standard input as an input.
pub const STANDARD: &str = "-";

/// Tests that standard input is one of these inputs at most, since it can be read once.
///
/// # Errors
///
/// `StandardInputTwice` if it is more of them.
pub fn standard_once(inputs: &[&str]) -> Result<(), CommandFault>
    ensures { let words = map (λ input. input.now) inputs.now in
        MatchResult result (λ _. is_standard_twice words ≡ false) (IsTwice words) }
{
    standard_once_beside(None, inputs)
}

/// Tests that standard input is at most one of these inputs and a list, if one is beside them.
///
/// # Errors
///
/// `StandardInputTwice` if it is more of them.
pub fn standard_once_beside(list: Option<&str>, inputs: &[&str]) -> Result<(), CommandFault>
    ensures { let words = word_if (option_map (λ text. text.now) list.entry)
        ++ map (λ input. input.now) inputs.now in
        MatchResult result (λ _. is_standard_twice words ≡ false) (IsTwice words) }
{
    let mut is_there = match list {
        Some(list) => list == STANDARD,
        None => false,
    };
    for input in inputs {
        if *input == STANDARD {
            if is_there {
                return Err(CommandFault::StandardInputTwice);
            }
            is_there = true;
        }
    }
    Ok(())
}
