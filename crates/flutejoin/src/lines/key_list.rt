//! A list of objects: lines that begin with their names.
ghost use Rattle.std.specs.Prelude.{◌≡◌, ◌⊎◌, ◌↔◌, ◌++◌, true, List, ℕ};
ghost use Rattle.std.specs.Prelude.{IfOk, IfErr, IfSome, MatchOption, OnOk};
ghost use Rattle.flute_journal.specs.declared.fault.ReadFault.TheVariants.{Read};
ghost use Rattle.flute_parts.specs.Ranges.{IsKey};
ghost use Rattle.flute_parts.specs.declared.key.Key.{Key as KeyValue};
ghost use Rattle.flutejoin.specs.JoinParts.{NamesOnly};
ghost use Rattle.flutejoin.specs.ListedLines.{IsPassedOver};
ghost use Rattle.flutejoin.specs.KeyLists.{BeginsWith, HasKeys, IsApart, IsNamed, IsNoName};
ghost use Rattle.flutejoin.specs.KeyLists.{KeyListFails, LineNames};
ghost use Rattle.flutejoin.specs.KeyLists.{ListNames, Names, NamesNone};
ghost use Rattle.flutejoin.specs.Show.{FailsToRead};
ghost use Rattle.flutejoin.specs.declared.command_fault.CommandFault.TheVariants.{Input};
ghost use Rattle.flutejoin.specs.declared.command_fault.CommandFault.TheVariants.{ListLine};
ghost use Rattle.flutejoin.specs.declared.command_fault.CommandFault.TheVariants.{OutOfMemory};

use crate::command_fault::CommandFault;
use crate::lines::fact_lines::push_key;
use crate::lines::key_words::{after, key_of, object_in, rest_after, session_in};
use crate::lines::next_words::{is_passed_over, list_line};
use crate::lines::text::Text;
use flute_parts::{Key, Source};
use std::alloc::Global;
use std::collections::BTreeSet;

/// The objects that a list names: each line begins with the name of one, as `gaps` prints it, after
/// which a space and anything may follow. Lines that are empty, or begin with `#`, `gap ` or
/// `bytes `, name none. They may come in any order, and more than once. One line of at most 512
/// bytes is held.
///
/// # Errors
///
/// The first that is met: `ListLine` with the number, from 1, of the first line that names no
/// object and is not passed over, or has no line feed within 512 bytes; `OutOfMemory` if there is
/// none for the names; and `Input`, as input 2, with `Read` if the source failed.
pub fn read_keys<R: Source>(alloc: Global, source: &mut R) -> Result<BTreeSet<Key>, CommandFault>
    ensures named { IfOk result (λ keys. IfSome (R.unread source.old)
        (λ bytes. ListNames bytes keys)) }
    ensures failed { IfErr result (λ fault. (fault ≡ Input 2 Read)
        ⊎ IfSome (R.unread source.old) (λ bytes. KeyListFails bytes fault)) }
    ensures names { IfErr result (NamesOnly 2) }
    ensures kinds { IfErr result (λ fault. (fault ≡ Input 2 Read) ⊎ ((fault ≡ OutOfMemory)
        ⊎ ((line : ℕ) × (fault ≡ ListLine line)))) }
    ensures failures { FailsToRead (R.failures source.old) (R.failures source.new) result }
{
    let mut keys = BTreeSet::new(alloc);
    let mut number: u64 = 1;
    while let Some(words) = list_line(source, number)? {
        add_named(&mut keys, words.as_slice(), number)?;
        if number == u64::MAX {
            return Err(CommandFault::ListLine(number));
        }
        number += 1;
    }
    Ok(keys)
}

// Adds the object that the line with this number names, if it names one.
fn add_named(keys: &mut BTreeSet<Key>, words: &[u8], number: u64) -> Result<(), CommandFault>
    ensures added { OnOk result ((named : List KeyValue) → HasKeys keys.old named
        → (here : List KeyValue) × LineNames words.now here
        × HasKeys keys.new (named ++ here)) }
    ensures failed { IfErr result (λ fault. (fault ≡ OutOfMemory)
        ⊎ ((fault ≡ ListLine number) × IsNoName words.now)) }
{
    if names_none(words) {
        return Ok(());
    }
    let Some(key) = read_name(words) else {
        return Err(CommandFault::ListLine(number));
    };
    match keys.insert(key) {
        Ok(_) => Ok(()),
        Err(_) => Err(CommandFault::OutOfMemory),
    }
}

// Whether a line names no object: it is passed over, or tells of the object before.
fn names_none(words: &[u8]) -> bool
    ensures { result ≡ true ↔ NamesNone words.now }
{
    is_passed_over(words) || begins_with(words, "gap ") || begins_with(words, "bytes ")
}

// Whether a line begins with these words.
fn begins_with(line: &[u8], words: &str) -> bool
    ensures { result ≡ true ↔ BeginsWith words.now line.now }
{
    after(line, words).is_some()
}

// The object whose name a line begins with.
fn read_name(words: &[u8]) -> Option<Key>
    ensures found { IfSome result (Names words.now) }
    ensures finds { (key : KeyValue) → IsKey key → Names words.now key
        → MatchOption result ⊥ (λ k. k ≡ key) }
{
    let Some((sender, tsi, rest)) = session_in(words) else {
        return None;
    };
    let Some((name, _)) = object_in(rest) else {
        return None;
    };
    let Some(key) = key_of(sender, tsi, name) else {
        return None;
    };
    let mut text = Text::new();
    push_key(&mut text, &key);
    if is_named(words, text.as_slice()) {
        Some(key)
    } else {
        None
    }
}

// Whether a line begins with this name, after which nothing follows, or a space.
fn is_named(words: &[u8], name: &[u8]) -> bool
    ensures { result ≡ true ↔ IsNamed name.now words.now }
{
    match rest_after(words, name) {
        Some(rest) => is_apart(rest),
        None => false,
    }
}

// Whether nothing follows a name, or a space.
fn is_apart(rest: &[u8]) -> bool
    ensures { result ≡ true ↔ IsApart rest.now }
{
    match rest.first() {
        Some(byte) => *byte == b' ',
        None => true,
    }
}
