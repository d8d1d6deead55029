//! `Gaps`: yields the gaps of an object of a store, one after another.
ghost use Rattle.std.specs.Prelude.{◌≡◌, ℕ, ◌+◌, ◌<◌, ◌≤◌, ◌^◌, false};
ghost use Rattle.std.specs.Prelude.{length, IfSome, IfNone, MatchResult};
ghost use Rattle.std.specs.Map.{keys_of};
ghost use Rattle.std.specs.Iterator.{YieldsFirst, MakesProgress, item_count};
ghost use Rattle.flute_join.specs.Cell.{IsKnown};
ghost use Rattle.flute_join.specs.JoinMap.{IsOrdered, EachValue};
ghost use Rattle.flute_parts.specs.Information.{sizes};
ghost use Rattle.flute_parts.specs.Order.{symbol_id_cmp};
ghost use Rattle.flute_parts.specs.Partition.{ids};
ghost use Rattle.flute_store.specs.Objects.{runs};
ghost use Rattle.flute_store.specs.Wanted.{wanted};
ghost use Rattle.flute_store.specs.GapsLeft.{Ticks, IsPast, IsAtEnd};
ghost use Rattle.flute_store.specs.GapAnswers.{GivesGaps, TellsGapFault};

use crate::gap::Gap;
use crate::held_scan::HeldScan;
use crate::held_symbol::HeldSymbol;
use crate::store::Store;
use flute_join::Cell;
use flute_parts::{Info, Key, SymbolId};
use std::collections::btree_map;
use std::marker::Model;
use thiserror::Error;

/// Why the gaps of an object are not returned. The first reason that applies is.
#[derive(Clone, Copy, Debug, Error)]
pub enum GapFault {
    /// Nothing of the object is held.
    #[error("no object")]
    NoObject,
    /// Symbols of the object are held, and no transmission information.
    #[error("no information")]
    NoInformation,
    /// Two values of the transmission information came.
    #[error("conflicting information")]
    ConflictingInformation,
}

/// The gaps of an object, in the order of its partition.
///
/// It walks the held symbols and the blocks side by side: however long the object is, all its gaps
/// take no more ticks than there are blocks and held symbols, and one. It takes no memory.
#[derive(Drop)]
pub struct Gaps<'a> {
    walk: HeldScan<'a>,
}

impl<'a> Model for Gaps<'a> {
    ghost use Rattle.std.specs.Prelude.{length};
    ghost use Rattle.std.specs.Map.{keys_of};
    ghost use Rattle.flute_parts.specs.Information.{sizes};
    ghost use Rattle.flute_store.specs.GapsLeft.{GapsLeft};

    ghost Value = { GapsLeft };

    ghost use Rattle.flute_store.specs.PartitionScan.{gaps_left};
    ghost use Rattle.flute_store.specs.HeldScan.{walk_in, bound, IsHeldScan};

    ghost view = { λ g. record {
      gaps = gaps_left (walk_in g.walk);
      held = keys_of g.walk.held;
      begun = g.walk.walk.begun;
      blocks = length (sizes g.walk.walk.partition);
      ended = g.walk.ended;
      ticks = g.walk.ticks;
      bound = bound g.walk;
    } };

    ghost invariant = { λ g. IsHeldScan g.walk };
}

impl<'a> Gaps<'a> {
    // The gaps of an object with this transmission information and these symbols.
    pub(crate) fn new(info: &Info, symbols: btree_map::Iter<'a, SymbolId, HeldSymbol>) -> Gaps<'a>
        requires ordered { IsOrdered symbol_id_cmp symbols }
        requires known { EachValue IsKnown symbols }
        requires few { length symbols < 2 ^ 32 }
        ensures gaps { result.gaps ≡ runs (wanted info.now symbols.entry (ids info.now)) }
        ensures held { result.held ≡ keys_of symbols.entry }
        ensures begun { result.begun ≡ 0 }
        ensures total { result.blocks ≡ length (sizes info.now) }
        ensures ended { result.ended ≡ false }
        ensures ticks { result.ticks ≡ 0 }
        ensures bound { result.bound ≡ length (sizes info.now) + length symbols.entry + 1 }
        ensures few { length (ids info.now) ≤ 2 ^ 32 }
    {
        Gaps {
            walk: HeldScan::new(info, symbols),
        }
    }

    /// How many steps were taken so far: each passes a held symbol or begins a block, and the first
    /// to find that nothing is left is one too. It takes constant time.
    pub fn ticks(&self) -> u64
        ensures value { result ≡ self.now.ticks }
        ensures bounded { self.now.ticks ≤ self.now.bound }
    {
        self.walk.ticks
    }
}

impl Iterator for Gaps<'_> {
    type Item = Gap;

    ghost next_gives = { YieldsFirst (λ g. g.gaps) };

    ghost remaining = { item_count (λ g. g.gaps) };

    /// The next gap, in constant time for each tick. None if none is left, and again None after
    /// that.
    ///
    /// Each block that it begins and each held symbol that it passes takes a tick, and so does,
    /// once, finding that nothing is left. At a gap it has begun the blocks up to the gap's, and
    /// passed the held symbols up to the gap's last one.
    fn next(&mut self) -> Option<Gap>
        ensures steps { YieldsFirst (λ g. g.gaps) self.old result self.new }
        ensures goes { MakesProgress (λ _. Unit {0})
            (item_count (λ g. g.gaps)) self.old result self.new }
        ensures bound { self.new.bound ≡ self.old.bound }
        ensures total { self.new.blocks ≡ self.old.blocks }
        ensures rises { self.old.ticks ≤ self.new.ticks }
        ensures ticks { Ticks self.old self.new }
        ensures past { IfSome result (IsPast self.new) }
        ensures end { IfNone result (IsAtEnd self.new) }
    {
        self.walk.next()
    }
}

impl<const SESSIONS: u32, const OBJECTS: u32, const SYMBOLS: u32> Store<
    SESSIONS,
    OBJECTS,
    SYMBOLS,
> {
    /// The symbols of an object's partition that are not held as one fitting value, grouped into
    /// the longest runs of symbols of one block that follow one another and are missing for one
    /// reason. A held symbol that the partition does not have is no gap.
    ///
    /// `NoObject` if nothing of the object is held, `NoInformation` if no transmission information
    /// of it is, and `ConflictingInformation` if two values of it came. It takes no memory, and the
    /// time of two look-ups: of the session, and of its object.
    pub fn gaps(&self, key: &Key) -> Result<Gaps<'_>, GapFault>
        ensures { MatchResult result (λ gaps. GivesGaps self.now key.now gaps)
            (λ fault. TellsGapFault self.now key.now fault) }
    {
        let Some(object) = self.object(key) else {
            return Err(GapFault::NoObject);
        };
        match &object.info {
            Cell::Absent => Err(GapFault::NoInformation),
            Cell::One(info) => Ok(Gaps::new(info, object.symbols.iter())),
            Cell::Conflict => Err(GapFault::ConflictingInformation),
        }
    }
}
