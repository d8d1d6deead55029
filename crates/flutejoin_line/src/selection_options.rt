//! What the options of a command select of a journal.
ghost use Rattle.std.specs.Prelude.{◌≡◌, MatchResult, codes, false};
ghost use Rattle.flutejoin_line.specs.Options.{IsBadNumber, found_rows};
ghost use Rattle.flutejoin_line.specs.Selecting.{IsSelection, IsSelectionFault, IsSymbolIf};
ghost use Rattle.flutejoin_line.specs.Selecting.{has_symbol};

use crate::numbers::{decimal_below, number_if, sessions, source};
use crate::objects::object;
use crate::words::{flag, word};
use clap::ArgMatches;
use flute_parts::SymbolId;
use flute_streams::{Scope, Selection};
use flutejoin::CommandFault;

/// What `--source`, `--tsi`, `--toi` and `--fdt`, `--symbol`, `--info` and `--conflicts` select.
///
/// # Errors
///
/// `BadNumber` with the first of `--tsi`, `--toi`, `--fdt` and `--symbol` that is no number of its
/// range, or with `--tsi` if it is given more than 64 times; `BadSource`; `BadKey` if `--fdt` does
/// not go with `--toi`.
pub fn selection(matches: &ArgMatches<'_>) -> Result<Selection, CommandFault>
    ensures { let rows = found_rows matches.now in
        MatchResult result (IsSelection rows) (IsSelectionFault rows) }
{
    let sessions = sessions(matches)?;
    let toi = number_if(matches, "toi", 1 << 112)?;
    let instance = number_if(matches, "fdt", 1 << 20)?;
    let symbol = symbol(matches)?;
    let sender = source(matches)?;
    let object = object(toi, instance)?;
    let scope = Scope {
        sessions,
        object,
        files: false,
    };
    Ok(Selection {
        sender,
        scope,
        symbol,
        info: flag(matches, "info"),
        conflicts: flag(matches, "conflicts"),
    })
}

// The symbol that the `BLOCK/SYMBOL` of `--symbol` names, each 1 to 39 decimal digits, and below
// 2^16; or none if it is left out.
fn symbol(matches: &ArgMatches<'_>) -> Result<Option<SymbolId>, CommandFault>
    ensures { let rows = found_rows matches.now in
        MatchResult result (IsSymbolIf rows)
        (λ fault. IsBadNumber (codes "symbol") fault × (has_symbol rows ≡ false)) }
{
    let Some(text) = word(matches, "symbol") else {
        return Ok(None);
    };
    let Some((block, symbol)) = text.split_once('/') else {
        return Err(CommandFault::BadNumber("symbol"));
    };
    let sbn = decimal_below(block, "symbol", 1 << 16)? as u16;
    let esi = decimal_below(symbol, "symbol", 1 << 16)? as u16;
    Ok(Some(SymbolId { sbn, esi }))
}
