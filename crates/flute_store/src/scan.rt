//! A scan over what is held of an object, as it is read in the order of a journal.
ghost use Rattle.std.specs.Prelude.{◌≡◌, ◌+◌, ◌≤◌, List, length, IfNone};
ghost use Rattle.flute_parts.specs.Information.{sizes};
ghost use Rattle.flute_parts.specs.declared.fact.Fact.{Fact};
ghost use Rattle.flute_store.specs.Scan.{Scanned, Turned, CanFollow, CanCome, at_begin, PartOf};
ghost use Rattle.flute_store.specs.Scan.{GaveAll};
ghost use Rattle.flute_store.specs.Scans.{Next, Scans, held_next, announced};
ghost use Rattle.flute_store.specs.Scans.{BeginsBlocks, Stepped};
ghost use Rattle.flute_store.specs.Status.{TellsStatus};

use crate::partition_scan::{Held, PartitionScan};
use crate::status::{Status, Wanted};
use crate::turn::Turn;
use flute_parts::{Info, Key, SymbolId};
use std::marker::Model;

/// A scan over what is held of an object with one value of its transmission information, in the
/// order of a journal: symbol after symbol, along with the symbols of its partition. It holds none
/// of them, and takes no memory.
#[derive(Drop)]
pub struct ObjectScan {
    key: Key,
    info: Info,
    walk: PartitionScan,
    wanted: Wanted,
}

impl Model for ObjectScan {
    ghost use Rattle.flute_store.specs.Scans.{ScanState, IsScan};

    ghost Value = { ScanState };

    ghost view = { λ s. record {
      key = s.key;
      info = s.info;
      walk = s.walk;
      wanted = s.wanted;
    } };

    ghost invariant = { λ s. IsScan (record {
      key = s.key;
      info = s.info;
      walk = s.walk;
      wanted = s.wanted;
    }) };
}

impl ObjectScan {
    /// A scan over the object with this transmission information, of which no symbol was read yet.
    pub fn new(key: Key, info: &Info) -> ObjectScan
        ensures { Scans result (at_begin key info.now) }
    {
        ObjectScan {
            key,
            info: *info,
            walk: PartitionScan::new(info),
            wanted: Wanted::none(),
        }
    }

    /// What comes next, given the next symbol that is held, with its one value, or None if two
    /// values came; or that none is left. The symbol is passed if the result is `Fitting`, `Wanted`
    /// or `Passed`. After `Gap` the same is to be given again.
    ///
    /// It takes constant time, and constant time more for each block that it begins; all calls
    /// together begin no more blocks than the object has.
    #[inline(always)]
    pub fn next(&mut self, next: Option<(SymbolId, Option<&[u8]>)>) -> Turn
        ensures turned { (s : Scanned) → Scans self.old s
            → CanFollow s next.entry → CanCome s next.entry
            → (t : Scanned) × Turned s next.entry result t × Scans self.new t }
        ensures part { (s : Scanned) → Scans self.new s → PartOf s }
        ensures blocks { BeginsBlocks self.old self.new }
    {
        // From this the proof knows where the scan may be.
        let _ = &self.key;
        let held = match &next {
            Some((id, Some(bytes))) => Some((*id, Some(bytes.len()))),
            Some((id, None)) => Some((*id, None)),
            None => None,
        };
        loop {
            if let Some(turn) = self.step(&held) {
                return turn;
            }
        }
    }

    // What comes next. None if a block was begun.
    #[inline(always)]
    fn step(&mut self, held: &Option<Held>) -> Option<Turn>
        ensures step { (s : Scanned) (next : Next) → held.now ≡ held_next next
            → Scans self.old (announced s next) → CanFollow s next
            → Stepped s next self.new result }
        ensures begun { IfNone result (self.new.walk.begun ≡ self.old.walk.begun + 1) }
        ensures blocks { BeginsBlocks self.old self.new }
    {
        let turn = self.walk.turn(held);
        self.wanted.add_turn(&turn);
        match (turn, held) {
            // A held symbol after the last block is passed.
            (Some(Turn::End), Some(_)) => Some(Turn::Passed),
            (turn, _) => turn,
        }
    }

    /// How much is held of the object, once all its symbols were passed and all gaps given.
    pub fn status(&self) -> Status
        ensures { (s : Scanned) → Scans self.now s → (F : List Fact) → GaveAll s F
            → TellsStatus F s.key result }
    {
        self.wanted.status(self.info.length())
    }
}
