//! The scan of an object of a store: each symbol that is held, beside the object's partition.
ghost use Rattle.std.specs.Prelude.{◌≡◌, ◌-◌, ◌<◌, ◌≤◌, ◌^◌, false, length, IfSome, IfNone};
ghost use Rattle.std.specs.Iterator.{YieldsFirst};
ghost use Rattle.flute_join.specs.Cell.{IsKnown};
ghost use Rattle.flute_join.specs.JoinMap.{IsOrdered, EachValue};
ghost use Rattle.flute_parts.specs.Order.{symbol_id_cmp};
ghost use Rattle.flute_parts.specs.Partition.{ids};
ghost use Rattle.flute_store.specs.PartitionScan.{at_start, gaps_left, PassesGap};
ghost use Rattle.flute_store.specs.HeldScan.{walk_in, bound, IsHeldScan, Turns, IsAheadOf};
ghost use Rattle.flute_store.specs.HeldScan.{HasEnded, counted};

use crate::gap::Gap;
use crate::held_symbol::HeldSymbol;
use crate::partition_scan::{Held, PartitionScan};
use crate::peekable_symbols::PeekableSymbols;
use crate::turn::Turn;
use flute_parts::{Info, SymbolId};
use std::collections::btree_map;

/// A walk over the blocks and all held symbols of an object, whose steps are counted.
#[derive(Drop)]
pub struct HeldScan<'a> {
    pub walk: PartitionScan,
    /// The held symbols that are not passed.
    pub held: PeekableSymbols<'a>,
    pub ticks: u64,
    /// Whether it was found that nothing is left.
    pub ended: bool,
}

impl<'a> HeldScan<'a> {
    /// A walk over an object with this transmission information and these symbols.
    pub fn new(info: &Info, symbols: btree_map::Iter<'a, SymbolId, HeldSymbol>) -> HeldScan<'a>
        requires ordered { IsOrdered symbol_id_cmp symbols }
        requires known { EachValue IsKnown symbols }
        requires few { length symbols < 2 ^ 32 }
        ensures start { walk_in result ≡ at_start info.now symbols.entry }
        ensures ticks { result.ticks ≡ 0 }
        ensures ended { result.ended ≡ false }
        ensures walk { IsHeldScan result }
        ensures few { length (ids info.now) ≤ 2 ^ 32 }
    {
        HeldScan {
            walk: PartitionScan::new(info),
            held: PeekableSymbols::new(symbols),
            ticks: 0,
            ended: false,
        }
    }

    /// What comes next. None if a block was begun.
    pub fn turn(&mut self) -> Option<Turn>
        requires { IsHeldScan self.old }
        ensures { Turns self.old result self.new }
    {
        let next = match self.held.first() {
            Some((id, held)) => match held.value() {
                Some(bytes) => Some((id, Some(bytes.len()))),
                None => Some((id, None)),
            },
            None => None,
        };
        let turn = self.walk.turn(&next);
        self.count(&turn);
        turn
    }

    // Passes the held symbol that a turn passed, and counts the turn.
    fn count(&mut self, turn: &Option<Turn>)
        requires { self.old.ticks < 2 ^ 64 - 1 }
        ensures { self.new ≡ counted turn.now self.old }
    {
        match turn {
            Some(Turn::Gap(_)) => {}
            Some(Turn::End) if self.ended => {}
            Some(Turn::End) => {
                self.ended = true;
                self.ticks += 1;
            }
            Some(Turn::Fitting | Turn::Wanted | Turn::Passed) => {
                self.held.pass();
                self.ticks += 1;
            }
            None => self.ticks += 1,
        }
    }

    /// The next gap.
    pub fn next(&mut self) -> Option<Gap>
        requires { IsHeldScan self.old }
        ensures walk { IsHeldScan self.new }
        ensures gives { YieldsFirst (λ w. gaps_left (walk_in w)) self.old result self.new }
        ensures bound { bound self.new ≡ bound self.old }
        ensures rises { self.old.ticks ≤ self.new.ticks }
        ensures ahead { IsAheadOf self.old self.new }
        ensures past { IfSome result (PassesGap (walk_in self.new)) }
        ensures ended { IfNone result (HasEnded self.new) }
    {
        loop {
            match self.turn() {
                Some(Turn::Gap(gap)) => return Some(gap),
                Some(Turn::End) => return None,
                Some(Turn::Fitting) => {}
                Some(Turn::Wanted) => {}
                Some(Turn::Passed) => {}
                None => {}
            }
        }
    }
}
