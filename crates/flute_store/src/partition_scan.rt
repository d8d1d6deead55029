//! The part of a scan that is the same for all sources of symbols: the next turn at each symbol.
ghost use Rattle.std.specs.Prelude.{◌≡◌, ◌+◌, ◌<◌, ◌≤◌, ◌^◌, ℕ, List, Some, None, length, IfNone};
ghost use Rattle.flute_join.specs.declared.cell.Cell.{Cell};
ghost use Rattle.flute_parts.specs.declared.symbol_id.SymbolId.{SymbolId as Id};
ghost use Rattle.flute_parts.specs.Information.{sizes};
ghost use Rattle.flute_parts.specs.Partition.{ids};
ghost use Rattle.flute_store.specs.PartitionScan.{at_start, walk_of, IsPlace, upcoming_at};
ghost use Rattle.flute_store.specs.PartitionScan.{until_next, ended_run, missing_gap};
ghost use Rattle.flute_store.specs.PartitionScan.{after_missing, after_wanted, after_block};
ghost use Rattle.flute_store.specs.PartitionScan.{turn_of};

use crate::gap::{Gap, Reason};
use crate::turn::Turn;
use flute_parts::{Info, Partition, SymbolId};
use std::cmp::Ordering;

/// What comes next on a walk.
#[derive(Clone, Copy)]
pub enum Upcoming {
    /// There is no block left.
    End,
    /// The block has no symbol left.
    BlockEnd,
    /// A held symbol that is before the next symbol of the block.
    Passed,
    /// The next symbol of the block, held as one fitting value.
    Fitting,
    /// The next symbol of the block, held and still wanted.
    Wanted(Reason),
    /// The next symbol of the block, of which nothing is held.
    NotHeld,
}

/// A held symbol: its ID, and how many bytes its one value has. None if two values came.
pub type Held = (SymbolId, Option<usize>);

/// A walk over the blocks of an object, beside the symbols that are held of it, which are shown to
/// it one after another.
#[derive(Drop)]
pub struct PartitionScan {
    pub partition: Partition,
    /// The block that was begun last, its next symbol and its length.
    pub sbn: u16,
    pub esi: u32,
    pub size: u32,
    /// How many blocks were begun.
    pub begun: u32,
    /// The wanted held symbols just before the next one, of which no gap was given yet.
    pub run: Option<Gap>,
}

impl PartitionScan {
    /// A walk over an object with this transmission information.
    pub fn new(info: &Info) -> PartitionScan
        ensures start { (held : List (Id × Cell (List ℕ)))
            → walk_of result held ≡ at_start info.now held }
        ensures place { IsPlace result }
        ensures few { length (ids info.now) ≤ 2 ^ 32 }
    {
        let partition = Partition::of(info);
        let _limits = (partition.blocks(), partition.symbols());
        PartitionScan {
            partition,
            sbn: 0,
            esi: 0,
            size: 0,
            begun: 0,
            run: None,
        }
    }

    // What comes next.
    fn upcoming(&self, next: &Option<Held>) -> Upcoming
        requires { IsPlace self.now }
        ensures { result ≡ upcoming_at self.now next.now }
    {
        if self.esi == self.size {
            return if self.begun == self.partition.blocks() {
                Upcoming::End
            } else {
                Upcoming::BlockEnd
            };
        }
        let Some((id, length)) = next else {
            return Upcoming::NotHeld;
        };
        let here = SymbolId {
            sbn: self.sbn,
            esi: self.esi as u16,
        };
        match id.cmp(&here) {
            Ordering::Less => Upcoming::Passed,
            Ordering::Equal => match length {
                Some(length) if self.partition.fits(*id, *length) => Upcoming::Fitting,
                Some(_) => Upcoming::Wanted(Reason::Misfit),
                None => Upcoming::Wanted(Reason::Conflicting),
            },
            Ordering::Greater => Upcoming::NotHeld,
        }
    }

    // The run, if what comes next ends it.
    fn ended_run(&self, upcoming: Upcoming) -> Option<Gap>
        ensures { result ≡ ended_run self.now.run upcoming }
    {
        match (self.run, upcoming) {
            (None, _) | (Some(_), Upcoming::Passed) => None,
            (Some(gap), Upcoming::Wanted(reason)) if gap.reason == reason => None,
            (Some(gap), _) => Some(gap),
        }
    }

    // Begins the next block.
    fn begin(&mut self)
        requires { self.old.begun < length (sizes self.old.partition) }
        ensures block { self.new ≡ after_block self.old }
        ensures longest { self.new.size ≤ 65536 }
    {
        let _blocks = self.partition.blocks();
        self.sbn = self.begun as u16;
        self.esi = 0;
        self.size = self.partition.block_len(self.sbn);
        self.begun += 1;
    }

    // Adds the next symbol to the run.
    fn want(&mut self, reason: Reason)
        requires { self.old.esi < 65536 }
        ensures { self.new ≡ after_wanted self.old reason }
    {
        let esi = self.esi as u16;
        self.run = Some(match self.run {
            Some(gap) => Gap { last: esi, ..gap },
            None => Gap {
                sbn: self.sbn,
                first: esi,
                last: esi,
                reason,
            },
        });
        self.esi += 1;
    }

    // The gap of the symbols that are not held from the next one on.
    fn missing(&mut self, next: &Option<Held>) -> Gap
        requires some { self.old.esi < until_next self.old.sbn self.old.size next.now }
        requires place { IsPlace self.old }
        ensures gap { result ≡ missing_gap self.old next.now }
        ensures walk { self.new ≡ after_missing self.old next.now }
    {
        let until = match next {
            Some((id, _)) if id.sbn == self.sbn && u32::from(id.esi) < self.size => {
                u32::from(id.esi)
            }
            _ => self.size,
        };
        let gap = Gap {
            sbn: self.sbn,
            first: self.esi as u16,
            last: (until - 1) as u16,
            reason: Reason::Missing,
        };
        self.esi = until;
        gap
    }

    /// What comes next, given the next held symbol that was not passed, if one is left.
    /// None if a block was begun.
    pub fn turn(&mut self, next: &Option<Held>) -> Option<Turn>
        requires { IsPlace self.old }
        ensures turn { (result, self.new) ≡ turn_of self.old next.now }
        ensures place { IsPlace self.new }
        ensures begun { IfNone result (self.new.begun ≡ self.old.begun + 1) }
    {
        let upcoming = self.upcoming(next);
        if let Some(gap) = self.ended_run(upcoming) {
            self.run = None;
            return Some(Turn::Gap(gap));
        }
        match upcoming {
            Upcoming::End => Some(Turn::End),
            Upcoming::BlockEnd => {
                self.begin();
                None
            }
            Upcoming::Passed => Some(Turn::Passed),
            Upcoming::Fitting => {
                self.esi += 1;
                Some(Turn::Fitting)
            }
            Upcoming::Wanted(reason) => {
                self.want(reason);
                Some(Turn::Wanted)
            }
            Upcoming::NotHeld => Some(Turn::Gap(self.missing(next))),
        }
    }
}
