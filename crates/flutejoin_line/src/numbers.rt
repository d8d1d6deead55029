//! Reads numbers and senders from the words of a command line.
ghost use Rattle.std.specs.Prelude.{◌≡◌, ◌<◌, ◌^◌, ℕ, IfOk, IfSome, MatchResult, codes, false};
ghost use Rattle.std.specs.Prelude.{is_some, map, true, unwrap_or};
ghost use Rattle.clap.specs.Walk.{first_of};
ghost use Rattle.flute_streams.specs.Sessions.{listed_tsis};
ghost use Rattle.flutejoin_line.specs.Options.{AreNumbers, HasSessions, HasSource, IsBadNumber};
ghost use Rattle.flutejoin_line.specs.Options.{IsNumber, IsNumberIf, IsSourceIf, are_sessions};
ghost use Rattle.flutejoin_line.specs.Options.{found_rows, has_number, is_below, number_in, words};

use crate::words::{text, word};
use clap::ArgMatches;
use flute_parts::Sender;
use flute_streams::Sessions;
use flutejoin::{CommandFault, sender_in};

/// The sessions of `--tsi`, or all if it is left out.
///
/// # Errors
///
/// `BadNumber` if one of its numbers is not below 2^48, or if there are more than 64.
pub fn sessions(matches: &ArgMatches<'_>) -> Result<Sessions, CommandFault>
    ensures { let rows = found_rows matches.now in
        MatchResult result (λ sessions. HasSessions rows (listed_tsis sessions))
        (λ fault. IsBadNumber (codes "tsi") fault
        × (are_sessions (words (codes "tsi") rows) ≡ false)) }
{
    let texts = matches.get_strs("tsi").unwrap_or(&[]);
    let mut sessions = Sessions::all();
    for text in texts {
        let number = decimal_below(text, "tsi", 1 << 48)? as u64;
        if !sessions.add(number) {
            return Err(CommandFault::BadNumber("tsi"));
        }
    }
    Ok(sessions)
}

/// The sender of `--source`, or none if it is left out.
///
/// # Errors
///
/// `BadSource` if it names no sender, as `sender_in` says.
pub fn source(matches: &ArgMatches<'_>) -> Result<Option<Sender>, CommandFault>
    ensures sender { let rows = found_rows matches.now in MatchResult result (IsSourceIf rows)
        (λ fault. (fault ≡ CommandFault.BadSource)
        × ((sender : ℕ) → HasSource rows sender → ⊥)) }
    ensures or_zero { IfOk result (λ sender.
        HasSource (found_rows matches.now) (unwrap_or sender 0)) }
{
    let Some(text) = word(matches, "source") else {
        return Ok(None);
    };
    match sender_in(text) {
        Some(sender) => Ok(Some(sender)),
        None => Err(CommandFault::BadSource),
    }
}

/// The number of the option with this name, or none if it is left out.
///
/// # Errors
///
/// As of `number_below`.
pub fn number_if(
    matches: &ArgMatches<'_>,
    name: &'static str,
    limit: u128,
) -> Result<Option<u128>, CommandFault>
    ensures number { let rows = found_rows matches.now in
        MatchResult result (IsNumberIf name.now limit rows)
        (λ fault. IsBadNumber name.now fault × (is_some (first_of name.now rows) ≡ true)
        × (has_number name.now limit rows ≡ false)) }
    ensures range { IfOk result (λ number. IfSome number (λ n. n < limit)) }
{
    match word(matches, name) {
        Some(_) => Ok(Some(number_below(matches, name, limit)?)),
        None => Ok(None),
    }
}

/// The number of the option with this name.
///
/// # Errors
///
/// `BadNumber` if it is not 1 to 39 decimal digits, or not below the limit.
pub fn number_below(
    matches: &ArgMatches<'_>,
    name: &'static str,
    limit: u128,
) -> Result<u128, CommandFault>
    ensures { let rows = found_rows matches.now in
        MatchResult result (IsNumber name.now limit rows)
        (λ fault. IsBadNumber name.now fault × (has_number name.now limit rows ≡ false)) }
{
    decimal_below(text(matches, name), name, limit)
}

/// The number that a value of the option with this name spells.
///
/// # Errors
///
/// `BadNumber` if it is not 1 to 39 decimal digits, or not below the limit.
pub fn decimal_below(text: &str, name: &'static str, limit: u128) -> Result<u128, CommandFault>
    ensures { MatchResult result (λ number. (number_in text.now ≡ Some number)
        × (number < limit))
        (λ fault. IsBadNumber name.now fault × (is_below limit (number_in text.now) ≡ false)) }
{
    // `parse` takes a sign too.
    if text.len() > 39 || text.starts_with('+') {
        return Err(CommandFault::BadNumber(name));
    }
    match text.parse() {
        Ok(number) if number < limit => Ok(number),
        _ => Err(CommandFault::BadNumber(name)),
    }
}
