//! The bytes of a journal's parts: header, entries and end are made of facts.
ghost use Rattle.std.specs.Prelude.{◌≡◌, ◌+◌, ◌/◌, ◌%◌, ◌<◌, ◌≤◌, ◌^◌, ◌++◌, [], length};
ghost use Rattle.arrayvec.specs.ArrayVec.{array_vec_len};
ghost use Rattle.flute_parts.specs.Addresses.{fact_of};
ghost use Rattle.flute_store.specs.Walk.{IsSized};
ghost use Rattle.flute_journal.specs.Format.{key_bytes, entry};
ghost use Rattle.flute_journal.specs.declared.format.version.Version.TheVariants.{Two};
ghost use Rattle.flute_parts.specs.Ranges.{IsKey, IsFact};
ghost use Rattle.flute_journal.specs.Writing.{symbol_value};

use super::decode::names_file;
use super::number::length_field;
use arrayvec::ArrayVec;
use flute_parts::{FactRef, Key};

/// The front of an entry, up to the bytes of a symbol.
pub type HeadBytes = ArrayVec<u8, 50>;

/// Puts the front of an entry into `head`, which is empty. `last` are the bytes of the key of a
/// symbol before it, in whose place those of its key are put if it is of a symbol.
#[tactic(auto, using(crate::proofs::format_lemmas::SameFile::key_size_two))]
#[inline(always)]
pub fn put_head(head: &mut HeadBytes, last: &mut [u8; 37], fact: &FactRef<'_>)
    requires empty { head.old.items ≡ [] }
    requires room { array_vec_len head.old ≡ 0 }
    requires sized { IsSized (fact_of fact.now) }
    ensures bytes { head.new.items ++ symbol_value (fact_of fact.now) ≡ entry (fact_of fact.now) }
    ensures valid { IsFact (fact_of fact.now) }
{
    match fact {
        FactRef::Info { key, info } => {
            put(head, &[1]);
            put_key(head, key);
            put(head, &info.length().to_be_bytes()[2..]);
            put(head, &info.symbol().to_be_bytes());
            put(head, &info.block().to_be_bytes());
        }
        FactRef::InfoConflict { key } => {
            put(head, &[2]);
            put_key(head, key);
        }
        FactRef::Symbol { key, id, bytes } => {
            // Most symbols are of the object of the one before.
            if !names_file(last.as_slice(), key) {
                spell_key(last, key);
            }
            put(head, &[3]);
            put(head, last.as_slice());
            put(head, &id.sbn.to_be_bytes());
            put(head, &id.esi.to_be_bytes());
            put(head, &length_field(bytes));
        }
        FactRef::SymbolConflict { key, id } => {
            put(head, &[4]);
            put_key(head, key);
            put(head, &id.sbn.to_be_bytes());
            put(head, &id.esi.to_be_bytes());
        }
    }
}

// Appends bytes for which there is room.
fn put(head: &mut HeadBytes, bytes: &[u8])
    requires { array_vec_len head.old + length bytes.now ≤ 50 }
    ensures items { head.new.items ≡ head.old.items ++ bytes.now }
    ensures len { array_vec_len head.new ≡ array_vec_len head.old + length bytes.now }
{
    let _fits = head.try_extend_from_slice(bytes);
}

#[inline(always)]
fn put_key(head: &mut HeadBytes, key: &Key)
    requires { array_vec_len head.old ≤ 1 }
    ensures items { head.new.items ≡ head.old.items ++ key_bytes Two key.now }
    ensures len { array_vec_len head.new ≡ array_vec_len head.old + 37 }
    ensures valid { IsKey key.now }
{
    let (tag, number) = match key.object.instance() {
        Some(number) => (0, u128::from(number)),
        None => (1, key.object.toi()),
    };
    let (high, low) = halves(key.session.sender().number());
    put(head, &high.to_be_bytes());
    put(head, &low.to_be_bytes());
    put(head, &key.session.tsi().to_be_bytes()[2..]);
    put(head, &[tag]);
    let (upper, lower) = halves(number);
    put(head, &upper.to_be_bytes()[2..]);
    put(head, &lower.to_be_bytes());
}

// Puts down the bytes of a key.
#[inline(never)]
fn spell_key(bytes: &mut [u8; 37], key: &Key)
    ensures { bytes.new ≡ key_bytes Two key.now }
{
    let mut head = HeadBytes::new();
    put_key(&mut head, key);
    bytes.copy_from_slice(head.as_slice());
}

// The high and the low half of a number: the bytes of each are put down faster than those of both.
// It is never inlined: seen as a part of the number, the high half would be put down byte by byte.
#[inline(never)]
fn halves(number: u128) -> (u64, u64)
    ensures high { result.0 ≡ number / 2 ^ 64 }
    ensures low { result.1 ≡ number % 2 ^ 64 }
{
    ((number >> 64) as u64, (number % (1 << 64)) as u64)
}
