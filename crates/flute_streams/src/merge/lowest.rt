//! The lowest address that streams are at, and the value that their facts there have together.
ghost use Rattle.std.specs.Prelude.{◌≡◌, ◌++◌, ◌<◌, List, IfSome, Some, length, option_copied};
ghost use Rattle.std.specs.Prelude.{slice_get};
ghost use Rattle.flute_parts.specs.Addresses.{address, fact_of};
ghost use Rattle.flute_parts.specs.Order.{address_cmp};
ghost use Rattle.flute_parts.specs.Facts.{same_fact};
ghost use Rattle.flute_parts.specs.Ranges.{IsFact};
ghost use Rattle.flute_parts.specs.declared.address.Address.{Address};
ghost use Rattle.flute_parts.specs.declared.fact.Fact.{Fact};
ghost use Rattle.flute_store.specs.Walk.{IsSized};
ghost use Rattle.flute_journal.specs.Format.{entry};
ghost use Rattle.flute_journal.specs.JournalWriters.{Puts};
ghost use Rattle.flute_streams.specs.Streams.{heads, option_list, address_of};
ghost use Rattle.flute_streams.specs.Lowest.{AreSpelled, IsLowest, Joins, Stands, held_at};
ghost use Rattle.flute_streams.specs.Lowest.{first_at, place_at, value_at};
ghost use Rattle.flute_streams.specs.Lowest.{value_of};

use crate::merge::same_bytes::same_bytes;
use crate::streams::Streams;
use flute_journal::JournalWriter;
use flute_parts::{Address, FactRef, Part, Sink};
use std::cmp::Ordering;

/// The value at the lowest address at which streams hold facts.
#[derive(Clone, Copy)]
pub struct LowestValue {
    /// The number of the first stream that is there.
    pub number: usize,
    /// Whether those that are there hold different values: then it is a conflict, and else what
    /// that stream holds.
    pub conflict: bool,
}

impl LowestValue {
    /// The value, with what one stream more holds at that address. `spelled` are the bytes of the
    /// first one's entry, or none. If the bytes of both entries lie in memory, only these are
    /// compared.
    #[inline(always)]
    pub fn joined<G: Streams>(self, streams: &G, spelled: &[u8], number: usize) -> LowestValue
        requires own { (s : G.Stream) → slice_get (G.streams streams.now) self.number ≡ Some s
            → spelled.now ≡ G.behaviour.spelled s }
        requires spelled { AreSpelled G.behaviour (G.streams streams.now) }
        requires stands { Stands G.behaviour (G.streams streams.now) self }
        requires here { place_at G.behaviour (G.streams streams.now) (first_at number)
            ≡ place_at G.behaviour (G.streams streams.now) self }
        ensures { Joins G.behaviour (G.streams streams.now) self number result }
    {
        if self.conflict {
            return self;
        }
        let other = streams.spelled(number);
        let same = if spelled.is_empty() || other.is_empty() {
            hold_same_facts(streams, self.number, number)
        } else {
            same_bytes(spelled, other)
        };
        LowestValue {
            number: self.number,
            conflict: !same,
        }
    }
}

/// The value at the lowest address at which streams hold facts. None if none is held.
#[tactic(auto, using(std::proofs::Common::take_all))]
#[inline(always)]
pub fn lowest_held<G: Streams>(streams: &G) -> Option<LowestValue>
    requires { AreSpelled G.behaviour (G.streams streams.now) }
    ensures lowest { IsLowest (heads G.behaviour (G.streams streams.now))
        (value_of G.behaviour (G.streams streams.now) result) }
    ensures stands { IfSome result (Stands G.behaviour (G.streams streams.now)) }
{
    let mut lowest = None;
    for number in 0..streams.count() {
        if let Some(_) = streams.address(number) {
            lowest = Some(with_more(streams, lowest, number));
        }
    }
    lowest
}

// The lowest value, with one stream more, which holds a fact.
#[inline(always)]
fn with_more<G: Streams>(streams: &G, lowest: Option<LowestValue>, number: usize) -> LowestValue
    requires spelled { AreSpelled G.behaviour (G.streams streams.now) }
    requires stands { IfSome lowest (Stands G.behaviour (G.streams streams.now)) }
    requires here { Stands G.behaviour (G.streams streams.now) (first_at number) }
    ensures lowest { (facts : List Fact)
        → IsLowest facts (value_of G.behaviour (G.streams streams.now) lowest)
        → IsLowest (facts ++ option_list
        (held_at G.behaviour (G.streams streams.now) number))
        (value_at G.behaviour (G.streams streams.now) result) }
    ensures stands { Stands G.behaviour (G.streams streams.now) result }
{
    let first = LowestValue {
        number,
        conflict: false,
    };
    let Some(lowest) = lowest else {
        return first;
    };
    match order_of(streams.address(number), streams.address(lowest.number)) {
        Ordering::Less => first,
        Ordering::Greater => lowest,
        Ordering::Equal => lowest.joined(streams, streams.spelled(lowest.number), number),
    }
}

/// The order of two addresses that are there. Most are of one object.
#[tactic(auto, using(crate::proofs::Cited::same_object_cmp))]
#[inline(always)]
pub fn order_of(first: Option<&Address>, second: Option<&Address>) -> Ordering
    ensures { (a p : Address) → option_copied first.entry ≡ Some a
        → option_copied second.entry ≡ Some p → result ≡ address_cmp a p }
{
    let (Some(first), Some(second)) = (first, second) else {
        return Ordering::Equal;
    };
    if first.key == second.key {
        first.part.cmp(&second.part)
    } else {
        first.cmp(second)
    }
}

// Whether two streams that are at one address hold the same value there, whatever lies in memory.
#[inline(never)]
fn hold_same_facts<G: Streams>(streams: &G, first: usize, second: usize) -> bool
    requires first { first < length (G.streams streams.now) }
    requires second { second < length (G.streams streams.now) }
    requires place { address_of (held_at G.behaviour (G.streams streams.now) first)
        ≡ address_of (held_at G.behaviour (G.streams streams.now) second) }
    ensures { (g f : Fact) → held_at G.behaviour (G.streams streams.now) first ≡ Some g
        → held_at G.behaviour (G.streams streams.now) second ≡ Some f
        → result ≡ same_fact g f }
{
    match (streams.head(first), streams.head(second)) {
        (Some(one), Some(other)) => is_same(&one, &other),
        _ => false,
    }
}

/// Whether two facts at one address are the same. The address is not compared again.
#[tactic(auto, using(crate::proofs::merge_lemmas::LowestFacts::same_at))]
#[inline(always)]
pub fn is_same(first: &FactRef<'_>, second: &FactRef<'_>) -> bool
    requires { address (fact_of first.now) ≡ address (fact_of second.now) }
    ensures { result ≡ same_fact (fact_of first.now) (fact_of second.now) }
{
    match (first, second) {
        (FactRef::Symbol { bytes: first, .. }, FactRef::Symbol { bytes: second, .. }) => {
            same_bytes(first, second)
        }
        (FactRef::Info { info: first, .. }, FactRef::Info { info: second, .. }) => first == second,
        (FactRef::InfoConflict { .. }, FactRef::InfoConflict { .. }) => true,
        (FactRef::SymbolConflict { .. }, FactRef::SymbolConflict { .. }) => true,
        _ => false,
    }
}

/// Writes the entry of the value at the lowest address: as its bytes, if they lie in memory.
#[inline(always)]
pub fn write_lowest<G: Streams, W: Sink>(
    streams: &G,
    lowest: &LowestValue,
    writer: &mut JournalWriter<'_, W>,
)
    requires spelled { AreSpelled G.behaviour (G.streams streams.now) }
    requires stands { Stands G.behaviour (G.streams streams.now) lowest.now }
    requires sized { IfSome (value_at G.behaviour (G.streams streams.now) lowest.now)
        IsSized }
    ensures valid { IfSome (value_at G.behaviour (G.streams streams.now) lowest.now)
        IsFact }
    ensures puts { IfSome (value_at G.behaviour (G.streams streams.now) lowest.now)
        (λ f. Puts W.written W.failures (entry f) writer.old writer.new) }
{
    if !lowest.conflict {
        let spelled = streams.spelled(lowest.number);
        if !spelled.is_empty() {
            writer.spelled(spelled);
            return;
        }
    }
    write_value(streams, lowest, writer)
}

// The same, whatever lies in memory.
#[inline(never)]
fn write_value<G: Streams, W: Sink>(
    streams: &G,
    lowest: &LowestValue,
    writer: &mut JournalWriter<'_, W>,
)
    requires stands { Stands G.behaviour (G.streams streams.now) lowest.now }
    requires sized { IfSome (value_at G.behaviour (G.streams streams.now) lowest.now)
        IsSized }
    ensures valid { IfSome (value_at G.behaviour (G.streams streams.now) lowest.now)
        IsFact }
    ensures puts { IfSome (value_at G.behaviour (G.streams streams.now) lowest.now)
        (λ f. Puts W.written W.failures (entry f) writer.old writer.new) }
{
    let Some(fact) = streams.head(lowest.number) else {
        unreachable!();
    };
    if !lowest.conflict {
        writer.entry(&fact);
        return;
    }
    let Address { key, part } = fact.address();
    writer.entry(&match part {
        Part::Info => FactRef::InfoConflict { key },
        Part::Symbol(id) => FactRef::SymbolConflict { key, id },
    });
}
