//! Entries and records that lie whole in the buffer of their source, looked at where they lie.
ghost use Rattle.std.specs.Prelude.{◌≡◌, IfOk, IfErr, IfSome, MatchOption, Ok, Some, None};
ghost use Rattle.flute_journal.specs.declared.format.version.Version.TheVariants.{Two};
ghost use Rattle.flute_parts.specs.Addresses.{address, symbol_address};
ghost use Rattle.flute_parts.specs.declared.fact.Fact.TheVariants.{Symbol};
ghost use Rattle.flute_journal.specs.Lent.{BeginsWithEntry, TakesEntry, BeginsWithRecord};
ghost use Rattle.flute_journal.specs.Lent.{TakesRecord};
ghost use Rattle.flute_journal.specs.HeldEntries.{fact_held, left_behind, spelled_in, IsSpelling};
ghost use Rattle.flute_journal.specs.declared.fault.ReadFault.TheVariants.{OutOfMemory};

use crate::fault::ReadFault;
use crate::format::number::length_in;
use crate::format::{Kind, Version, next_symbol_in, symbol_in};
use crate::readers::held_entry::{HeldEntry, HeldValue};
use flute_parts::{Address, Bytes, Fact, Key, Part, Source, SymbolId};
use flute_wire::Datagram;

/// Takes the next entry of a journal of this version, if it is of a symbol, lies whole in the
/// source's buffer and has no fault. The entry before it is at `last`.
///
/// None if it is another, does not, or has a fault, and nothing was taken then. `OutOfMemory`
/// is the only fault. The bytes of a symbol are put into the memory of `spare`, as far as it
/// suffices.
#[tactic(auto, using(crate::proofs::readers_lemmas::Seen::has_entry))]
#[inline(always)]
pub fn take_entry<R: Source>(
    source: &mut R,
    version: Version,
    last: &Option<Address>,
    spare: Vec<u8>,
) -> Result<Option<Fact>, ReadFault>
    ensures takes { TakesEntry version last.now (R.unread source.old) (R.unread source.new) result }
    ensures failures { R.failures source.new ≡ R.failures source.old }
{
    let Some((key, id, symbol, size)) = entry_in(source.buffer(), version, last) else {
        return Ok(None);
    };
    let Ok(bytes) = Bytes::from_vec(copied_into(spare, symbol)?) else {
        unreachable!();
    };
    source.consume(size);
    Ok(Some(Fact::Symbol { key, id, bytes }))
}

/// Lets go of the entry that is held, and holds the next entry of a journal of version 2 where it
/// lies in the source's buffer: if it lies whole there, has no fault, and is of a symbol of the
/// same file as the entry before it, at `last`. Returns its id. It asks for no memory.
///
/// None if it is not so, and nothing was taken then.
#[inline(always)]
pub fn hold_next<R: Source>(
    source: &mut R,
    last: &Address,
    held: &mut HeldEntry,
) -> Option<SymbolId>
    ensures holds { IfSome result (λ id.
        MatchOption (fact_held (R.buffered source.new) held.new) ⊥ (λ f.
        (address f ≡ symbol_address last.now.key id)
        × IsSpelling (spelled_in (R.buffered source.new) held.new) (Some f)
        × TakesEntry Two (Some last.now)
        (left_behind (spelled_in (R.buffered source.old) held.old) (R.unread source.old))
        (left_behind (spelled_in (R.buffered source.new) held.new) (R.unread source.new))
        (Ok (Some f)))) }
    ensures nothing { result ≡ None → (source.new ≡ source.old) × (held.new ≡ held.old) }
    ensures failures { R.failures source.new ≡ R.failures source.old }
{
    let buffer = source.buffer();
    let taken = held.spelled(buffer).len();
    let (_, next) = buffer.split_at(taken);
    let (id, _, size) = next_in(next, last)?;
    source.consume(taken);
    *held = HeldEntry::Entry {
        address: Address {
            key: last.key,
            part: Part::Symbol(id),
        },
        value: HeldValue::InBuffer(size),
    };
    Some(id)
}

// The symbol whose entry is at the front of the bytes, after the entry at `last`, and how many
// bytes the entry has.
#[inline(always)]
fn next_in<'a>(bytes: &'a [u8], last: &Address) -> Option<(SymbolId, &'a [u8], usize)>
    ensures { IfSome result (λ e. BeginsWithEntry Two (Some last.now) bytes.now
        (Symbol last.now.key e.0 e.1.now) e.2) }
{
    let (&first, rest) = bytes.split_first()?;
    let Some(Kind::Symbol) = Kind::from_byte(first) else {
        return None;
    };
    let (head, rest) = rest.split_at_checked(Kind::Symbol.head_size(Version::Two))?;
    let (id, length) = next_symbol_in(last, head)?;
    let symbol = rest.get(..usize::from(length))?;
    Some((id, symbol, 1 + head.len() + symbol.len()))
}

// The symbol whose entry is at the front of the bytes, and how many bytes the entry has. None
// if there is another entry, or it is not whole or has a fault.
#[inline(always)]
fn entry_in<'a>(
    bytes: &'a [u8],
    version: Version,
    last: &Option<Address>,
) -> Option<(Key, SymbolId, &'a [u8], usize)>
    ensures { IfSome result (λ e. BeginsWithEntry version last.now bytes.now
        (Symbol e.0 e.1 e.2.now) e.3) }
{
    let (&first, rest) = bytes.split_first()?;
    let Some(Kind::Symbol) = Kind::from_byte(first) else {
        return None;
    };
    let (head, rest) = rest.split_at_checked(Kind::Symbol.head_size(version))?;
    let (key, id, length) = symbol_in(version, last, head)?;
    let symbol = rest.get(..usize::from(length))?;
    Some((key, id, symbol, 1 + head.len() + symbol.len()))
}

/// Takes the next record of a datagram file, if it lies whole in the source's buffer.
///
/// None if it does not, and nothing was taken then. `OutOfMemory` is the only fault. The bytes
/// of the datagram are put into the memory of `spare`, as far as it suffices.
#[inline(always)]
pub fn take_record<R: Source>(source: &mut R, spare: Vec<u8>) -> Result<Option<Datagram>, ReadFault>
    ensures takes { TakesRecord (R.unread source.old) (R.unread source.new) result }
    ensures failures { R.failures source.new ≡ R.failures source.old }
{
    match record_in(source.buffer(), spare) {
        Ok(Some(datagram)) => {
            source.consume(2 + datagram.as_slice().len());
            Ok(Some(datagram))
        }
        Ok(None) => Ok(None),
        Err(fault) => Err(fault),
    }
}

// The datagram whose record is at the front of the bytes. None if it is not whole.
#[inline(always)]
fn record_in(bytes: &[u8], spare: Vec<u8>) -> Result<Option<Datagram>, ReadFault>
    ensures begins { IfOk result (λ o. IfSome o (BeginsWithRecord bytes.now)) }
    ensures only { IfErr result (λ f. f ≡ OutOfMemory) }
{
    let Some((field, rest)) = bytes.split_at_checked(2) else {
        return Ok(None);
    };
    let Some(datagram) = rest.get(..usize::from(length_in(field))) else {
        return Ok(None);
    };
    let Ok(datagram) = Datagram::from_vec(copied_into(spare, datagram)?) else {
        unreachable!();
    };
    Ok(Some(datagram))
}

// The bytes, in the memory of `spare` as far as it suffices.
#[inline(always)]
fn copied_into(spare: Vec<u8>, bytes: &[u8]) -> Result<Vec<u8>, ReadFault>
    ensures same { IfOk result (λ copy. copy.items ≡ bytes.now) }
    ensures only { IfErr result (λ f. f ≡ OutOfMemory) }
{
    let mut copy = spare;
    copy.clear();
    if copy.extend_from_slice(bytes).is_err() {
        return Err(ReadFault::OutOfMemory);
    }
    Ok(copy)
}
