//! Which parts of one object streams hold, so that of many streams only those at the lowest
//! address are looked at.
ghost use Rattle.std.specs.Prelude.{◌≡◌, true, false, ℕ, ◌≢◌, ◌<◌, ◌≤◌};
ghost use Rattle.std.specs.Prelude.{◌/◌, ◌+◌};
ghost use Rattle.std.specs.Prelude.{None, Some, length, IfSome, IfOk, IfErr, OnOk};
ghost use Rattle.std.specs.Prelude.{option_copied, slice_index};
ghost use Rattle.flute_streams.specs.Streams.{heads};
ghost use Rattle.flute_streams.specs.Lowest.{AreSpelled, IsLowest, Stands, value_at};
ghost use Rattle.flute_streams.specs.Advances.{GoOnAt, StopsIn};
ghost use Rattle.flute_streams.specs.Ranks.{AreAbove, AreLow, AreLowBut, AreLowFrom, StandsFrom};
ghost use Rattle.flute_streams.specs.Ranks.{IsRanking, part_at};

use crate::merge::advance::Advanced;
use crate::merge::lowest::LowestValue;
use crate::merge::streams_fault::InputFault;
use crate::streams::Streams;
use flute_parts::{Address, Key, Part};
use std::alloc::Global;
use std::cmp::Ordering;

/// How many streams have ranks at least: fewer are looked at as fast.
pub const MANY: usize = 8;

/// How many streams can have ranks.
pub const MOST: usize = 128;

// How many streams in succession are a block.
const BLOCK: usize = 8;

// How many blocks there can be.
const BLOCKS: usize = 16;

// A stream that was advanced alone for so many turns may lead though there are ranks.
const LONG: u32 = 4;

// The rank of a stream that holds no part of the object: above those of all parts.
const BEHIND: u64 = u64::MAX;

/// The ranks of streams: where each stands among the parts of one object, in their order. A rank is
/// compared at a fraction of the cost of the address that a stream holds, and a block of streams
/// that stand behind an address is passed over at once.
#[derive(Drop)]
pub struct Ranks {
    /// The object. None if the streams have no ranks.
    pub key: Option<Key>,
    /// The rank of the stream with each number.
    ranks: [u64; MOST],
    /// The lowest rank in each block.
    lows: [u64; BLOCKS],
    /// The number of the last stream that was advanced alone.
    last: usize,
    /// How many times in succession it was.
    alone: u32,
}

impl Ranks {
    /// The streams have no ranks.
    pub fn new() -> Ranks
        ensures { result.key ≡ None }
    {
        Ranks {
            key: None,
            ranks: [BEHIND; MOST],
            lows: [BEHIND; BLOCKS],
            last: 0,
            alone: 0,
        }
    }

    /// Whether to look if the stream with this number leads, which was advanced alone: if there are
    /// ranks, only once it was so several times in succession.
    #[inline(always)]
    pub fn may_lead(&mut self, number: usize) -> bool
        ensures key { self.new.key ≡ self.old.key }
        ensures ranks { self.new.ranks ≡ self.old.ranks }
        ensures lows { self.new.lows ≡ self.old.lows }
    {
        if self.key.is_none() {
            return true;
        }
        self.alone = if number == self.last {
            self.alone.saturating_add(1)
        } else {
            0
        };
        self.last = number;
        self.alone >= LONG
    }

    /// Ranks the streams among the parts of this object. They have no ranks if one holds a fact of
    /// an object before that.
    #[inline(never)]
    pub fn rank<G: Streams>(&mut self, streams: &G, key: Key)
        requires { length (G.streams streams.now) ≤ 128 }
        ensures { IsRanking G.behaviour (G.streams streams.now) self.new }
    {
        self.key = None;
        for number in 0..streams.count() {
            let Some(rank) = rank_of(&key, streams.address(number)) else {
                return;
            };
            self.ranks[number] = rank;
        }
        self.lows = lows_of(&self.ranks);
        self.key = Some(key);
    }

    /// The value at the lowest address at which streams hold facts. None if that is no part of the
    /// object, or the streams have no ranks.
    #[inline(never)]
    pub fn lowest_held<G: Streams>(&self, streams: &G) -> Option<LowestValue>
        requires ranking { IsRanking G.behaviour (G.streams streams.now) self.now }
        requires spelled { AreSpelled G.behaviour (G.streams streams.now) }
        ensures lowest { IfSome result (λ l. IsLowest
            (heads G.behaviour (G.streams streams.now))
            (value_at G.behaviour (G.streams streams.now) l)) }
        ensures stands { IfSome result (Stands G.behaviour (G.streams streams.now)) }
    {
        self.key?;
        let all = streams.count();
        let rank = lowest_in(&self.lows, 0, (all + BLOCK - 1) / BLOCK);
        // no part has a rank above this
        if rank > 1 << 32 {
            return None;
        }
        let first = self.next_at(0, all, rank)?;
        let spelled = streams.spelled(first);
        let mut lowest = LowestValue {
            number: first,
            conflict: false,
        };
        let mut next = first + 1;
        while let Some(number) = self.next_at(next, all, rank) {
            lowest = lowest.joined(streams, spelled, number);
            next = number + 1;
        }
        Some(lowest)
    }

    /// Advances each stream that holds a fact at this address of the object, in their order.
    ///
    /// # Errors
    ///
    /// The fault of the first that stopped. Those after it are as they were.
    pub fn advance<G: Streams>(
        &mut self,
        alloc: Global,
        streams: &mut G,
        place: &Address,
    ) -> Result<Advanced, InputFault>
        requires ranking { IsRanking G.behaviour (G.streams streams.old) self.old }
        requires object { self.old.key ≡ Some place.now.key }
        ensures go_on { OnOk result (GoOnAt G.behaviour (Some place.now)
            (G.streams streams.old) (G.streams streams.new)) }
        ensures ranking { OnOk result (IsRanking G.behaviour (G.streams streams.new)
            self.new) }
        ensures last { IfOk result (λ moved.
            0 < moved.count → moved.last < length (G.streams streams.new)) }
        ensures stops { IfErr result (StopsIn G.behaviour (Some place.now)
            (G.streams streams.old) (G.streams streams.new)) }
        ensures names { G.names streams.new ≡ G.names streams.old }
    {
        let rank = number_of(place.part);
        let mut moved = Advanced { count: 0, last: 0 };
        let mut known = true;
        let all = streams.count();
        let mut next = 0;
        let mut block = 0;
        while let Some(number) = self.next_at(next, all, rank) {
            if self.ranks[number] == rank {
                if let Err(fault) = streams.advance(number, alloc) {
                    return Err(InputFault { number, fault });
                }
                known = known & self.rank_one(block, number, &place.key, streams.address(number));
                block = number / BLOCK;
                moved.count += 1;
                moved.last = number;
            }
            next = number + 1;
        }
        self.lows[block] = lowest_in(&self.ranks, BLOCK * block, BLOCK * block + BLOCK);
        if !known {
            self.key = None;
        }
        Ok(moved)
    }

    // The number of the first stream, from this one on, whose rank is this or below. None if there
    // is none. A block whose lowest rank is above is passed over.
    #[inline(always)]
    fn next_at(&self, from: usize, all: usize, rank: u64) -> Option<usize>
        requires few { all ≤ 128 }
        requires low { AreLowFrom from self.now.lows self.now.ranks }
        ensures next { IfSome result (λ n. (from ≤ n) × (n < all)
            × (slice_index self.now.ranks n ≤ rank) × AreAbove rank from n self.now.ranks) }
        ensures none { result ≡ None → AreAbove rank from all self.now.ranks }
    {
        let mut number = from;
        while number < all {
            if number % BLOCK == 0 && self.lows[number / BLOCK] > rank {
                number += BLOCK;
            } else if self.ranks[number] <= rank {
                return Some(number);
            } else {
                number += 1;
            }
        }
        None
    }

    // Gives the stream with this number, which is here now, a rank among the parts of an object.
    // False if that is a part of an object before that. The lowest rank of a block is found again
    // once its last stream is ranked: so first that of `block`, of the stream ranked before, if
    // this one is in another.
    #[inline(always)]
    fn rank_one(&mut self, block: usize, number: usize, key: &Key, place: Option<&Address>) -> bool
        requires few { number < 128 }
        requires blocks { block < 16 }
        ensures set { result ≡ true
            → StandsFrom key.now (slice_index self.new.ranks number) (option_copied place.entry) }
        ensures others { (k : ℕ) → k ≢ number
            → slice_index self.new.ranks k ≡ slice_index self.old.ranks k }
        ensures low { (next : ℕ) → next ≤ number
            → AreLowBut block next self.old.lows self.old.ranks
            → AreLowBut (number / 8) (number + 1) self.new.lows self.new.ranks }
        ensures key { self.new.key ≡ self.old.key }
    {
        if number / BLOCK != block {
            self.lows[block] = lowest_in(&self.ranks, BLOCK * block, BLOCK * block + BLOCK);
        }
        let Some(rank) = rank_of(key, place) else {
            return false;
        };
        self.ranks[number] = rank;
        true
    }
}

// The lowest rank in each block.
fn lows_of(ranks: &[u64; MOST]) -> [u64; BLOCKS]
    ensures { AreLow result ranks.now }
{
    let mut lows = [BEHIND; BLOCKS];
    for block in 0..BLOCKS {
        lows[block] = lowest_in(ranks, BLOCK * block, BLOCK * block + BLOCK);
    }
    lows
}

// The lowest rank from this place on, up to another.
#[inline(always)]
fn lowest_in(ranks: &[u64], from: usize, to: usize) -> u64
    requires { to ≤ length ranks.now }
    ensures { (k : ℕ) → from ≤ k → k < to → result ≤ slice_index ranks.now k }
{
    let mut lowest = BEHIND;
    for place in from..to {
        lowest = lowest.min(ranks[place]);
    }
    lowest
}

// The rank of a stream that is here, among the parts of an object. None if this is a part of an
// object before that.
#[inline(always)]
fn rank_of(key: &Key, place: Option<&Address>) -> Option<u64>
    ensures { IfSome result (λ rank. StandsFrom key.now rank (option_copied place.entry)) }
{
    let Some(place) = place else {
        return Some(BEHIND);
    };
    if place.key == *key {
        return Some(number_of(place.part));
    }
    match place.key.cmp(key) {
        Ordering::Greater => Some(BEHIND),
        _ => None,
    }
}

// The rank of a part.
#[inline(always)]
fn number_of(part: Part) -> u64
    ensures part { part_at result ≡ part }
    ensures few { result ≤ 4294967296 }
{
    match part {
        Part::Info => 0,
        Part::Symbol(id) => 1 + u64::from(id.sbn) * 65_536 + u64::from(id.esi),
    }
}
