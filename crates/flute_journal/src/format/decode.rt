//! From bytes to what they say. Every function takes the bytes that were read: all that its part
//! needs, or fewer at the end of the input.
ghost use Rattle.std.specs.Prelude.{◌≡◌, ◌<◌, ◌≤◌, ◌++◌, IfSome, IsTrue};
ghost use Rattle.std.specs.Prelude.{MatchOption, MatchResult, length, true, false, Some};
ghost use Rattle.flute_parts.specs.Information.{info_fault};
ghost use Rattle.flute_journal.specs.Numbers.{in_bytes};
ghost use Rattle.flute_parts.specs.BigEndian.{big_endian};
ghost use Rattle.flute_journal.specs.Format.{header_in, sender_size, id_bytes, key_bytes};
ghost use Rattle.flute_journal.specs.Faults.{is_after, is_name, is_key, key_size, named_in};
ghost use Rattle.flute_journal.specs.Faults.{key_in as key_of_bytes, info_in as info_of_bytes};
ghost use Rattle.flute_journal.specs.Faults.{opening_fault, header_fault};
ghost use Rattle.flute_journal.specs.Journal.{IsKeyIn};
ghost use Rattle.flute_parts.specs.Ranges.{IsKey, IsId, IsInfo};
ghost use Rattle.flute_journal.specs.Parsing.{HeadIn, RestIs, Parses, StopsReading, head_bytes};
ghost use Rattle.flute_journal.specs.Parsing.{head_size, rest_size, body_fault, rest_fault};
ghost use Rattle.flute_journal.specs.Parsing.{bytes_fault, end_fault};
ghost use Rattle.flute_journal.specs.declared.format.EntryHead.TheVariants.{Symbol};
ghost use Rattle.flute_journal.specs.declared.format.version.Version.TheVariants.{Two};
ghost use Rattle.flute_journal.specs.declared.format.Kind.TheVariants as kinds;
ghost use Rattle.flute_journal.specs.declared.fault.ReadFault.TheVariants.{Order, Cut};

use super::number::{number, number_of_14};
use super::version::Version;
use super::{EntryHead, HEADER, Kind};
use crate::fault::ReadFault;
use byteorder::{BigEndian, ByteOrder};
use flute_parts::{
    Address, Fact, Info, InfoFault, Key, ObjectKey, Part, Sender, SessionKey, SymbolId,
};

/// Looks at the first six bytes of a file: its magic number and its version.
pub fn check_opening(opening: &[u8; 6], bytes: &[u8]) -> Result<(), ReadFault>
    requires { length bytes.now ≤ 6 }
    ensures { Parses 6 (λ _. bytes.now ≡ opening.now) (opening_fault opening.now) bytes.now result }
{
    let Some((magic, rest)) = bytes.split_at_checked(4) else {
        return Err(ReadFault::Cut);
    };
    if magic != &opening[..4] {
        return Err(ReadFault::Magic);
    }
    if rest.len() < 2 {
        return Err(ReadFault::Cut);
    }
    if rest != &opening[4..] {
        return Err(ReadFault::Version);
    }
    Ok(())
}

/// Looks at the first six bytes of a journal: its magic number and its version.
pub fn check_header(bytes: &[u8]) -> Result<Version, ReadFault>
    requires { length bytes.now ≤ 6 }
    ensures { Parses 6 (λ version. header_in version ≡ bytes.now) header_fault bytes.now result }
{
    let Some((magic, rest)) = bytes.split_at_checked(4) else {
        return Err(ReadFault::Cut);
    };
    if magic != &HEADER[..4] {
        return Err(ReadFault::Magic);
    }
    if rest.len() < 2 {
        return Err(ReadFault::Cut);
    }
    if rest == [0, 1].as_slice() {
        Ok(Version::One)
    } else if rest == [0, 2].as_slice() {
        Ok(Version::Two)
    } else {
        Err(ReadFault::Version)
    }
}

/// Looks at what follows the byte 255 of a journal of so many entries, and at one byte
/// more if there is one.
#[tactic(auto, using(crate::proofs::Cited::end_read, crate::proofs::Cited::octets))]
pub fn check_end(count: u64, bytes: &[u8]) -> Result<(), ReadFault>
    requires { length bytes.now ≤ 9 }
    ensures { Parses 9 (λ _. bytes.now ≡ in_bytes 8 count) (end_fault count) bytes.now result }
{
    let Some((told, rest)) = bytes.split_at_checked(8) else {
        return Err(ReadFault::Cut);
    };
    if number(told) != u128::from(count) {
        return Err(ReadFault::Count);
    }
    if !rest.is_empty() {
        return Err(ReadFault::Trailing);
    }
    Ok(())
}

/// What follows the kind of an entry, up to the bytes of a symbol. The entry
/// before it is at `last`.
pub fn parse(
    version: Version,
    kind: Kind,
    last: &Option<Address>,
    bytes: &[u8],
) -> Result<EntryHead, ReadFault>
    requires { length bytes.now ≤ head_size version kind }
    ensures { Parses (head_size version kind) (λ x. HeadIn version last.now kind x
        × (head_bytes version x ≡ bytes.now)) (body_fault version last.now kind) bytes.now result }
{
    let Some((field, rest)) = bytes.split_at_checked(version.sender_size() + 21) else {
        return Err(ReadFault::Cut);
    };
    let Some(key) = key_in(version, field) else {
        return Err(ReadFault::Key);
    };
    rest_at(kind, last, key, rest)
}

/// What follows the kind of the entry of a symbol, up to its bytes: its key, its id and how
/// many bytes follow. The entry before it is at `last`. None if there is a fault.
#[inline(always)]
pub fn symbol_in(
    version: Version,
    last: &Option<Address>,
    bytes: &[u8],
) -> Option<(Key, SymbolId, u16)>
    requires { length bytes.now ≤ head_size version kinds.Symbol }
    ensures { IfSome result (λ s. HeadIn version last.now kinds.Symbol (Symbol s.0 s.1 s.2)
        × (head_bytes version (Symbol s.0 s.1 s.2) ≡ bytes.now)) }
{
    let (field, rest) = bytes.split_at_checked(version.sender_size() + 21)?;
    let key = key_in(version, field)?;
    match symbol_at(last, &key, rest) {
        Ok((id, length)) => Some((key, id, length)),
        Err(_) => None,
    }
}

/// What follows the kind of the entry of a symbol in version 2, up to its bytes, if it is of the
/// same file as the entry before, at `last`: its id and how many bytes follow. None if it is of
/// another object, or there is a fault.
#[tactic(auto, using(crate::proofs::format_lemmas::SameFile::part_after))]
#[inline(always)]
pub fn next_symbol_in(last: &Address, bytes: &[u8]) -> Option<(SymbolId, u16)>
    requires { length bytes.now ≤ head_size Two kinds.Symbol }
    ensures { IfSome result (λ s.
        HeadIn Two (Some last.now) kinds.Symbol (Symbol last.now.key s.0 s.1)
        × (head_bytes Two (Symbol last.now.key s.0 s.1) ≡ bytes.now)) }
{
    let (field, rest) = bytes.split_at_checked(Version::Two.sender_size() + 21)?;
    if !names_file(field, &last.key) {
        return None;
    }
    let Ok((id, rest)) = id_at(rest) else {
        return None;
    };
    let is_after = last.part < Part::Symbol(id);
    if !is_after {
        return None;
    }
    match length_at(rest) {
        Ok(length) => Some((id, length)),
        Err(_) => None,
    }
}

/// Whether these are the bytes of this key in version 2, and it names a file.
#[tactic(auto, using(crate::proofs::Cited::octets))]
#[inline(always)]
pub fn names_file(bytes: &[u8], key: &Key) -> bool
    requires { length bytes.now ≡ key_size Two }
    ensures spelled { result ≡ true → key_bytes Two key.now ≡ bytes.now }
    ensures valid { IsKey key.now }
{
    let own = key.session.sender().number();
    let toi = key.object.toi();
    let tsi = key.session.tsi();
    let (sender, name) = bytes.split_at(Version::Two.sender_size());
    if name[6] != 1 {
        return false;
    }
    if number(&name[..6]) != u128::from(tsi) {
        return false;
    }
    if toi == 0 || number_of_14(&name[7..]) != toi {
        return false;
    }
    BigEndian::read_u128(sender) == own
}

// The key of which these are the bytes.
#[inline(always)]
fn key_in(version: Version, bytes: &[u8]) -> Option<Key>
    requires { length bytes.now ≡ key_size version }
    ensures { MatchOption result (is_key version bytes.now ≡ false)
        (λ key. (is_key version bytes.now ≡ true) × (key ≡ key_of_bytes version bytes.now)
        × IsKeyIn version key) }
{
    let (field, name) = bytes.split_at(version.sender_size());
    let sender = match version {
        Version::One => Sender::new(0),
        Version::Two => Sender::new(BigEndian::read_u128(field)),
    };
    named_in(sender, name)
}

// The key of an object of this sender, of which these are the other bytes.
#[inline(always)]
fn named_in(sender: Sender, bytes: &[u8]) -> Option<Key>
    requires { length bytes.now ≡ 21 }
    ensures { MatchOption result (is_name bytes.now ≡ false)
        (λ key. (is_name bytes.now ≡ true) × (key ≡ named_in sender bytes.now) × IsKey key) }
{
    let session = SessionKey::new(sender, number(&bytes[..6]) as u64)?;
    let number = number_of_14(&bytes[7..]);
    let object = match bytes[6] {
        0 => ObjectKey::fdt(u32::try_from(number).ok()?)?,
        1 => ObjectKey::file(number)?,
        _ => return None,
    };
    Some(Key { session, object })
}

// Whether a part of the object is after the entry before. It is never inlined: if a reader is
// inlined too, the key that it looks at would be kept in memory twice.
#[tactic(auto, using(crate::proofs::format_lemmas::Decoded::same_object_after))]
#[inline(never)]
fn in_order(last: &Option<Address>, key: &Key, part: Part) -> Result<(), ReadFault>
    ensures { MatchResult result
        (λ _. IsTrue (is_after last.now (record { key = key.now; part = part })))
        (λ f. (f ≡ Order) × (is_after last.now (record { key = key.now; part = part }) ≡ false)) }
{
    // Most entries are of the object of the one before.
    let is_after = match last {
        None => true,
        Some(last) if last.key == *key => last.part < part,
        Some(last) => last.cmp(&Address { key: *key, part }).is_lt(),
    };
    if is_after {
        Ok(())
    } else {
        Err(ReadFault::Order)
    }
}

// What follows the key of an entry, up to the bytes of a symbol.
#[tactic(auto, using(crate::proofs::Cited::info_read, crate::proofs::Cited::octets))]
fn rest_at(
    kind: Kind,
    last: &Option<Address>,
    key: Key,
    bytes: &[u8],
) -> Result<EntryHead, ReadFault>
    requires key { IsKey key }
    requires most { length bytes.now ≤ rest_size kind }
    ensures { Parses (rest_size kind) (RestIs last.now kind key bytes.now)
        (rest_fault last.now kind key) bytes.now result }
{
    match kind {
        Kind::Info => {
            in_order(last, &key, Part::Info)?;
            if bytes.len() < 12 {
                return Err(ReadFault::Cut);
            }
            match info_in(bytes) {
                Ok(info) => Ok(EntryHead::Whole(Fact::Info { key, info })),
                Err(fault) => Err(ReadFault::Information(fault)),
            }
        }
        Kind::InfoConflict => {
            in_order(last, &key, Part::Info)?;
            Ok(EntryHead::Whole(Fact::InfoConflict { key }))
        }
        Kind::Symbol => match symbol_at(last, &key, bytes) {
            Ok((id, length)) => Ok(EntryHead::Symbol { key, id, length }),
            Err(fault) => Err(fault),
        },
        Kind::SymbolConflict => {
            let (id, _) = id_at(bytes)?;
            in_order(last, &key, Part::Symbol(id))?;
            Ok(EntryHead::Whole(Fact::SymbolConflict { key, id }))
        }
    }
}

// The information of which these are the bytes.
fn info_in(bytes: &[u8]) -> Result<Info, InfoFault>
    requires { length bytes.now ≡ 12 }
    ensures { MatchResult result
        (λ info. (info ≡ info_of_bytes bytes.now) × IsInfo info)
        (λ fault. info_fault (info_of_bytes bytes.now) ≡ Some fault) }
{
    let length = number(&bytes[..6]) as u64;
    let symbol = number(&bytes[6..8]) as u16;
    let block = number(&bytes[8..]) as u32;
    Info::new(length, symbol, block)
}

// The id and the number of the bytes of a symbol, which follow the key of its entry.
#[tactic(auto, using(crate::proofs::format_lemmas::Decoded::symbol_faults))]
#[inline(always)]
fn symbol_at(last: &Option<Address>, key: &Key, bytes: &[u8]) -> Result<(SymbolId, u16), ReadFault>
    requires key { IsKey key.now }
    requires most { length bytes.now ≤ 6 }
    ensures { Parses 6
        (λ s. RestIs last.now kinds.Symbol key.now bytes.now (Symbol key.now s.0 s.1))
        (rest_fault last.now kinds.Symbol key.now) bytes.now result }
{
    let (id, rest) = id_at(bytes)?;
    in_order(last, key, Part::Symbol(id))?;
    let length = length_at(rest)?;
    Ok((id, length))
}

// The id at the front of the bytes, and the rest.
fn id_at(bytes: &[u8]) -> Result<(SymbolId, &[u8]), ReadFault>
    ensures { MatchResult result
        (λ p. IsId p.0 × (bytes.now ≡ id_bytes p.0 ++ p.1.now))
        (λ f. (f ≡ Cut) × (length bytes.now < 4)) }
{
    let Some((field, rest)) = bytes.split_at_checked(4) else {
        return Err(ReadFault::Cut);
    };
    let id = SymbolId {
        sbn: number(&field[..2]) as u16,
        esi: number(&field[2..]) as u16,
    };
    Ok((id, rest))
}

// The number of the bytes of a symbol.
fn length_at(bytes: &[u8]) -> Result<u16, ReadFault>
    requires { length bytes.now ≤ 2 }
    ensures { Parses 2 (λ n. (0 < n) × (in_bytes 2 n ≡ bytes.now)) bytes_fault bytes.now result }
{
    if bytes.len() < 2 {
        return Err(ReadFault::Cut);
    }
    let length = BigEndian::read_u16(bytes);
    if length == 0 {
        return Err(ReadFault::EmptySymbol);
    }
    Ok(length)
}
