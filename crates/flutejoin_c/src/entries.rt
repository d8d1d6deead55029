//! `flutejoin_c_entries`: what each entry of a journal in memory says.
ghost use Rattle.std.specs.Prelude.{◌≡◌, ◌≢◌, ◌++◌, ℕ, List, IfOk, IfErr, Some};
ghost use Rattle.flute_parts.specs.Addresses.{bytes_of};
ghost use Rattle.flutejoin_c.specs.Entries.{AreEntries, EntriesFail, GivesEntries, Says};
ghost use Rattle.flutejoin_c.specs.Gives.{TellsFault};
ghost use Rattle.flutejoin_c.specs.Packets.{symbol_in};

use crate::answer::Answer;
use crate::object::ObjectFields;
use crate::packet::{InfoFields, SymbolFields, info_fields, no_symbol};
use flute_journal::JournalReader;
use flute_parts::{Fact, MemorySource, SymbolId};
use flutejoin::{CommandFault, MAX_ENTRIES, at_input};
use std::alloc::Global;

/// What an entry of a journal says.
#[repr(C)]
#[derive(Clone, Copy)]
pub struct EntryFields {
    /// Of which object.
    pub object: ObjectFields,
    /// 1 if it is the transmission information, 2 if two values of that came, 3 if it is an
    /// encoding symbol, 4 if two values of that came.
    pub kind: u32,
    /// The transmission information, if that is what it says.
    pub info: InfoFields,
    /// Which symbol it is, and where in the journal its bytes are. If two values of it came, there
    /// are none.
    pub symbol: SymbolFields,
}

/// Gives what each entry of a journal says, in their order.
///
/// Returns 0, or the number of the fault: `Input` or `OutOfMemory`. `out` is as it was then.
#[unsafe(no_mangle)]
pub extern "C" fn flutejoin_c_entries(
    alloc: Global,
    journal: &[u8],
    out: &mut [EntryFields],
    answer: &mut Answer,
) -> u32
    ensures listed { result ≡ 0 → GivesEntries journal.now out.old out.new answer.new.needed }
    ensures failed { result ≢ 0 → TellsFault (EntriesFail journal.now) result answer.new.number }
    ensures kept { result ≢ 0 → out.new ≡ out.old }
    ensures code { answer.new.code ≡ result }
{
    match entries_of(alloc, journal) {
        Ok(listed) => answer.give(&listed, out),
        Err(fault) => answer.refuse(fault),
    }
}

// What each entry says.
fn entries_of(alloc: Global, journal: &[u8]) -> Result<Vec<EntryFields>, CommandFault>
    ensures listed { IfOk result (λ listed. AreEntries journal.now listed.items) }
    ensures failed { IfErr result (EntriesFail journal.now) }
{
    let mut source = MemorySource::new(journal);
    let mut reader = JournalReader::new(&mut source, MAX_ENTRIES);
    let mut listed = Vec::new(alloc);
    let mut spare = Vec::new(alloc);
    while let Some(fact) = at_input(1, reader.next_with(alloc, spare))? {
        let fields = fields_of(&fact, journal, reader.buffer());
        if listed.push(fields).is_err() {
            return Err(CommandFault::OutOfMemory);
        }
        spare = fact.into_vec(alloc);
    }
    Ok(listed)
}

// What an entry of a journal says, of which this is left behind it.
fn fields_of(fact: &Fact, journal: &[u8], left: &[u8]) -> EntryFields
    requires { (front : List ℕ) × (journal.now ≡ front ++ (bytes_of fact.now ++ left.now)) }
    ensures { Says journal.now result fact.now }
{
    let (kind, info, symbol) = match fact {
        Fact::Info { info, .. } => (1, Some(*info), no_symbol()),
        Fact::InfoConflict { .. } => (2, None, no_symbol()),
        Fact::Symbol { id, bytes, .. } => (3, None, place_of(*id, bytes.as_slice(), journal, left)),
        Fact::SymbolConflict { id, .. } => (4, None, place_of(*id, &[], journal, left)),
    };
    EntryFields {
        object: ObjectFields::of(&fact.address().key),
        kind,
        info: info_fields(info),
        symbol,
    }
}

// Where the bytes of a symbol are in a journal, of which this is left behind them.
fn place_of(id: SymbolId, bytes: &[u8], journal: &[u8], left: &[u8]) -> SymbolFields
    requires { (front : List ℕ) × (journal.now ≡ front ++ (bytes.now ++ left.now)) }
    ensures { symbol_in journal.now result ≡ Some (id, bytes.now) }
{
    let end = journal.len().saturating_sub(left.len());
    SymbolFields {
        present: 1,
        sbn: id.sbn,
        esi: id.esi,
        start: end.saturating_sub(bytes.len()),
        length: bytes.len(),
    }
}
