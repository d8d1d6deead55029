//! `--memory`: reads a number of bytes.
ghost use Rattle.std.specs.Prelude.{◌≡◌, ◌≤◌, ◌^◌, MatchResult, None, Some, codes};
ghost use Rattle.flutejoin_line.specs.Options.{IsBadNumber, found_rows};
ghost use Rattle.flutejoin_line.specs.Sizes.{memory_in, number_and_unit, size_of};

use crate::numbers::decimal_below;
use crate::words::word;
use clap::ArgMatches;
use flutejoin::{CommandFault, DEFAULT_MEMORY, MAX_MEMORY};

/// The bytes of `--memory`, or the default if it is left out.
///
/// # Errors
///
/// `BadNumber` if it is not 1 to 39 decimal digits, with `K`, `M` or `G` after them or without, or
/// not 1 to 2^62 bytes.
#[tactic(auto, unfolding(crate::specs::Sizes::size_of))]
pub fn memory(matches: &ArgMatches<'_>) -> Result<u64, CommandFault>
    ensures { let rows = found_rows matches.now in
        MatchResult result (λ memory. memory_in rows ≡ Some memory)
        (λ fault. IsBadNumber (codes "memory") fault × (memory_in rows ≡ None)) }
{
    let Some(text) = word(matches, "memory") else {
        return Ok(DEFAULT_MEMORY);
    };
    let (number, unit) = number_and_unit(text);
    let bytes = decimal_below(number, "memory", MAX_MEMORY as u128 + 1)? * unit;
    if bytes == 0 || bytes > MAX_MEMORY as u128 {
        return Err(CommandFault::BadNumber("memory"));
    }
    Ok(bytes as u64)
}

// The number in a size, and how many bytes it counts.
fn number_and_unit(text: &str) -> (&str, u128)
    ensures parts { (result.0.now, result.1) ≡ number_and_unit text.now }
    ensures unit { (1 ≤ result.1) × (result.1 ≤ 2 ^ 30) }
{
    if let Some(number) = text.strip_suffix('K') {
        return (number, 1 << 10);
    }
    if let Some(number) = text.strip_suffix('M') {
        return (number, 1 << 20);
    }
    if let Some(number) = text.strip_suffix('G') {
        return (number, 1 << 30);
    }
    (text, 1)
}
