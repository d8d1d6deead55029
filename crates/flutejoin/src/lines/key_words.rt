//! The names of objects in a text, as commands print them, read back.
ghost use Rattle.std.specs.Prelude.{◌≡◌, ℕ, ◌<◌, ◌≤◌, ◌^◌, true, false, List, ◌++◌};
ghost use Rattle.std.specs.Prelude.{length, slice_index, codes, decimal, IfSome, MatchOption};
ghost use Rattle.std.specs.Char.{is_ascii_digit};
ghost use Rattle.flute_parts.specs.ObjectName.{IsObjectName};
ghost use Rattle.flute_parts.specs.Ranges.{IsKey};
ghost use Rattle.flute_parts.specs.Session.{Session, IsSession};
ghost use Rattle.flute_parts.specs.declared.key.Key.{Key as KeyValue};
ghost use Rattle.flute_parts.specs.declared.object_key.ObjectName.{ObjectName as NameValue};
ghost use Rattle.flutejoin.specs.Lines.{source_words, object_words};

use byteorder::{BigEndian, ByteOrder};
use flute_parts::{Key, ObjectKey, ObjectName, Sender, SessionKey};

// What follows these words at the front of a text.
pub(crate) fn after<'a>(text: &'a [u8], words: &str) -> Option<&'a [u8]>
    ensures found { IfSome result (λ rest. text.now ≡ words.now ++ rest.now) }
    ensures finds { (tail : List ℕ) → text.now ≡ words.now ++ tail
        → MatchOption result ⊥ (λ rest. rest.now ≡ tail) }
{
    rest_after(text, words.as_bytes())
}

// What follows these bytes at the front of a text.
pub(crate) fn rest_after<'a>(text: &'a [u8], front: &[u8]) -> Option<&'a [u8]>
    ensures found { IfSome result (λ rest. text.now ≡ front.now ++ rest.now) }
    ensures finds { (tail : List ℕ) → text.now ≡ front.now ++ tail
        → MatchOption result ⊥ (λ rest. rest.now ≡ tail) }
{
    text.strip_prefix(front)
}

// How many digits a text begins with.
fn digits_len(text: &[u8]) -> usize
    ensures within { result ≤ length text.now }
    ensures before { (k : ℕ) → k < result → is_ascii_digit (slice_index text.now k) ≡ true }
    ensures stops { result < length text.now
        → is_ascii_digit (slice_index text.now result) ≡ false }
{
    for (i, byte) in text.iter().enumerate() {
        if !byte.is_ascii_digit() {
            return i;
        }
    }
    text.len()
}

// The number after these words, and what follows it.
pub(crate) fn number_after<'a>(text: &'a [u8], words: &str) -> Option<(u128, &'a [u8])>
    ensures found { IfSome result (λ _. (rest : List ℕ) × (text.now ≡ words.now ++ rest)) }
    ensures finds { (n : ℕ) (tail : List ℕ) → n < 2 ^ 128
        → is_ascii_digit (slice_index tail 0) ≡ false
        → text.now ≡ words.now ++ (decimal n ++ tail)
        → MatchOption result ⊥ (λ r. (r.0 ≡ n) × (r.1.now ≡ tail)) }
{
    let Some(rest) = after(text, words) else {
        return None;
    };
    let len = digits_len(rest);
    if len == 0 {
        return None;
    }
    let (digits, rest) = rest.split_at(len);
    let Ok(digits) = std::str::from_utf8(digits) else {
        return None;
    };
    match digits.parse::<u128>() {
        Ok(number) => Some((number, rest)),
        Err(_) => None,
    }
}

// The sender before a session, 0 if there is none, and what follows.
fn source_in(text: &[u8]) -> Option<(u128, &[u8])>
    ensures finds { (n : ℕ) (tail : List ℕ) → n < 2 ^ 128
        → text.now ≡ source_words n ++ (codes "session " ++ tail)
        → MatchOption result ⊥ (λ r. (r.0 ≡ n) × (r.1.now ≡ codes "session " ++ tail)) }
{
    let Some(rest) = after(text, "source ") else {
        return Some((0, text));
    };
    if rest.len() < 32 {
        return None;
    }
    let (digits, rest) = rest.split_at(32);
    let mut bytes = [0; 16];
    match hex::decode_to_slice(digits, &mut bytes) {
        Ok(()) => match after(rest, " ") {
            Some(rest) => Some((BigEndian::read_u128(&bytes), rest)),
            None => None,
        },
        Err(_) => None,
    }
}

// The sender and the number of the session at the front of a text, and what follows it.
pub(crate) fn session_in(text: &[u8]) -> Option<(u128, u128, &[u8])>
    ensures finds { (s : Session) (tail : List ℕ) → IsSession s
        → is_ascii_digit (slice_index tail 0) ≡ false
        → text.now ≡ source_words s.sender ++ (codes "session " ++ (decimal s.tsi ++ tail))
        → MatchOption result ⊥ (λ r. (r.0 ≡ s.sender) × (r.1 ≡ s.tsi)
        × (r.2.now ≡ tail)) }
{
    let Some((sender, rest)) = source_in(text) else {
        return None;
    };
    match number_after(rest, "session ") {
        Some((tsi, rest)) => Some((sender, tsi, rest)),
        None => None,
    }
}

// The name of the object after the space at the front of a text, and what follows it.
pub(crate) fn object_in(text: &[u8]) -> Option<(ObjectName, &[u8])>
    ensures finds { (name : NameValue) (tail : List ℕ) → IsObjectName name
        → is_ascii_digit (slice_index tail 0) ≡ false
        → text.now ≡ codes " " ++ (object_words name ++ tail)
        → MatchOption result ⊥ (λ r. (r.0 ≡ name) × (r.1.now ≡ tail)) }
{
    match number_after(text, " object fdt ") {
        Some((id, rest)) if id < 1 << 20 => Some((ObjectName::Instance(id as u32), rest)),
        Some(_) => None,
        None => match number_after(text, " object ") {
            Some((toi, rest)) => Some((ObjectName::File(toi), rest)),
            None => None,
        },
    }
}

// The key of this session and object.
pub(crate) fn key_of(sender: u128, tsi: u128, name: ObjectName) -> Option<Key>
    ensures valid { IfSome result IsKey }
    ensures finds { (key : KeyValue) → IsSession key.session → IsObjectName key.object
        → sender ≡ key.session.sender → tsi ≡ key.session.tsi → name ≡ key.object
        → MatchOption result ⊥ (λ k. k ≡ key) }
{
    if tsi >= 1 << 48 {
        return None;
    }
    let session = SessionKey::new(Sender::new(sender), tsi as u64)?;
    let object = match name {
        ObjectName::Instance(instance) => ObjectKey::fdt(instance)?,
        ObjectName::File(toi) => ObjectKey::file(toi)?,
    };
    Some(Key { session, object })
}
