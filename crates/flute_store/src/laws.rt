//! Laws of what stores hold and of objects, each the contract of a function that does nothing.
ghost use Rattle.std.specs.Prelude.{◌≡◌, ◌≢◌, ◌++◌, List, None};
ghost use Rattle.flute_parts.specs.Addresses.{address};
ghost use Rattle.flute_parts.specs.Facts.{fact_at, Same, Below};
ghost use Rattle.flute_parts.specs.declared.fact.Fact.{Fact as Known};
ghost use Rattle.flute_store.specs.Held.{HasCell};
ghost use Rattle.flute_store.specs.Laws.{SameWhole, SameObject, SameGaps, GapsListWants};
ghost use Rattle.flute_store.specs.Laws.{GapsAreRuns, GapsAreUnique, WholeHasNoGap};
ghost use Rattle.flute_store.specs.Laws.{WholeHasItsLength};
ghost use Rattle.flute_store.specs.Sent.{DatagramsGiveTheObject};

/// What is held at an address is joined with what comes there.
///
/// - `again`: what a refused `absorb` leaves, joined again with success, gives the join.
/// - `cells`: at a held address a fact needs no new session, object or symbol.
pub fn what_is_held_is_joined()
    ensures again { (old other left new : List Known) → Below old left
        → Below left (old ++ other) → Same new (left ++ other)
        → Same new (old ++ other) }
    ensures cells { (held : List Known) (fact : Known)
        → fact_at held (address fact) ≢ None → HasCell held fact }
{}

/// The facts of an object say all of it.
///
/// - `whole`, `bytes`, `gaps`: lists of facts with the same value at each address have the same
///   whole objects, bytes and gaps.
/// - `length`: a whole object has as many bytes as its transfer length says, never one more or
///   less.
/// - `datagrams`: if an object's facts are those of the datagrams that carry it, from its sender,
///   in any order and with any repeats, it is whole, and its bytes are those that were sent.
pub fn facts_give_the_objects()
    ensures whole { SameWhole }
    ensures bytes { SameObject }
    ensures gaps { SameGaps }
    ensures length { WholeHasItsLength }
    ensures datagrams { DatagramsGiveTheObject }
{}

/// Gaps are the maximal runs of the symbols that are not held as one fitting value, and an object
/// is whole exactly if it has no gap.
pub fn gaps_are_maximal_runs()
    ensures wants { GapsListWants }
    ensures runs { GapsAreRuns }
    ensures unique { GapsAreUnique }
    ensures whole { WholeHasNoGap }
{}
