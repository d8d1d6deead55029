//! What is known of the lowest address, so that not each stream has to be looked at: the stream
//! that holds a fact below all others leads until it has passed the next address; and many streams
//! have ranks.
ghost use Rattle.std.specs.Prelude.{◌≡◌, ◌<◌, true, false, Some, length, IfSome, OnOk, IfErr};
ghost use Rattle.std.specs.Prelude.{option_copied};
ghost use Rattle.flute_streams.specs.Streams.{heads};
ghost use Rattle.flute_streams.specs.Lowest.{AreSpelled, IsLowest, Stands, StandsOn, first_at};
ghost use Rattle.flute_streams.specs.Lowest.{value_of};
ghost use Rattle.flute_streams.specs.Leads.{Leads, IsBelowNext, lower_next};
ghost use Rattle.flute_streams.specs.Ranks.{IsLed, IsRanking};
ghost use Rattle.flute_streams.specs.Advances.{GoOnAt, StopsIn};

use crate::merge::advance::advance_at;
use crate::merge::lowest::{LowestValue, lowest_held};
use crate::merge::ranks::{MANY, MOST, Ranks};
use crate::merge::streams_fault::InputFault;
use crate::streams::Streams;
use flute_parts::{Address, Sink};
use std::alloc::Global;

/// The stream that leads: it holds a fact below those of all others.
#[derive(Clone, Copy)]
pub struct Lead {
    /// Whether one is known to lead.
    known: bool,
    /// Its number.
    number: usize,
    /// The lowest address of the others. None if they hold nothing.
    next: Option<Address>,
}

impl Lead {
    /// No stream is known to lead.
    pub fn new() -> Lead
        ensures { result.known ≡ false }
    {
        Lead {
            known: false,
            number: 0,
            next: None,
        }
    }

    /// The value at the lowest address at which streams hold facts. None if none is held.
    #[inline(always)]
    pub fn lowest<G: Streams>(&self, ranks: &Ranks, streams: &G) -> Option<LowestValue>
        requires led { IsLed G.behaviour (G.streams streams.now) self.now ranks.now }
        requires spelled { AreSpelled G.behaviour (G.streams streams.now) }
        ensures lowest { IsLowest (heads G.behaviour (G.streams streams.now))
            (value_of G.behaviour (G.streams streams.now) result) }
        ensures stands { IfSome result (Stands G.behaviour (G.streams streams.now)) }
        ensures leading { self.now.known ≡ true
            → IfSome result (λ l. l.number ≡ self.now.number) }
    {
        if self.known {
            return match streams.address(self.number) {
                Some(_) => Some(LowestValue {
                    number: self.number,
                    conflict: false,
                }),
                None => None,
            };
        }
        if streams.count() >= MANY && ranks.key.is_some() {
            if let Some(lowest) = ranks.lowest_held(streams) {
                return Some(lowest);
            }
        }
        lowest_held(streams)
    }

    /// Advances each stream that holds a fact at this address, the lowest, in their order, once it
    /// was written to a sink of the kind `W`: the loop of each kind has a step of its own, which is
    /// inlined. The stream with the number `first` is one of them. Many streams get ranks.
    ///
    /// # Errors
    ///
    /// The fault of the first that stopped. Those after it are as they were.
    #[inline(always)]
    pub fn advance<G: Streams, W: Sink>(
        &mut self,
        ranks: &mut Ranks,
        alloc: Global,
        streams: &mut G,
        place: &Address,
        first: usize,
    ) -> Result<(), InputFault>
        requires led { IsLed G.behaviour (G.streams streams.old) self.old ranks.old }
        requires leading { self.old.known ≡ true → first ≡ self.old.number }
        requires first { StandsOn G.behaviour place.now (G.streams streams.old)
            (first_at first) }
        ensures go_on { OnOk result (GoOnAt G.behaviour (Some place.now)
            (G.streams streams.old) (G.streams streams.new)) }
        ensures led { OnOk result
            (IsLed G.behaviour (G.streams streams.new) self.new ranks.new) }
        ensures stops { IfErr result (StopsIn G.behaviour (Some place.now)
            (G.streams streams.old) (G.streams streams.new)) }
        ensures names { G.names streams.new ≡ G.names streams.old }
    {
        if self.known {
            let number = self.number;
            if let Err(fault) = streams.advance(number, alloc) {
                return Err(InputFault { number, fault });
            }
            self.known = is_below(streams.address(number), &self.next);
            return Ok(());
        }
        if streams.count() >= MANY {
            return self.advance_many::<G, W>(ranks, alloc, streams, place, first);
        }
        ranks.key = None;
        let moved = advance_at(alloc, streams, Some(place), first)?;
        // of two or three streams each is looked at as fast as a lead (a join of two journals has
        // three)
        if moved.count == 1 && streams.count() > 3 {
            self.look(streams, moved.last);
        }
        Ok(())
    }

    // Advances each of many streams that holds a fact at this address, and chooses how the next
    // address is found: by one that leads, or by ranks. It is no part of the step of few streams,
    // which would take longer.
    #[inline(never)]
    fn advance_many<G: Streams, W: Sink>(
        &mut self,
        ranks: &mut Ranks,
        alloc: Global,
        streams: &mut G,
        place: &Address,
        first: usize,
    ) -> Result<(), InputFault>
        requires unknown { self.old.known ≡ false }
        requires first { StandsOn G.behaviour place.now (G.streams streams.old)
            (first_at first) }
        requires ranking { IsRanking G.behaviour (G.streams streams.old) ranks.old }
        ensures go_on { OnOk result (GoOnAt G.behaviour (Some place.now)
            (G.streams streams.old) (G.streams streams.new)) }
        ensures led { OnOk result
            (IsLed G.behaviour (G.streams streams.new) self.new ranks.new) }
        ensures stops { IfErr result (StopsIn G.behaviour (Some place.now)
            (G.streams streams.old) (G.streams streams.new)) }
        ensures names { G.names streams.new ≡ G.names streams.old }
    {
        let moved = if ranks.key == Some(place.key) {
            ranks.advance(alloc, streams, place)?
        } else {
            ranks.key = None;
            advance_at(alloc, streams, Some(place), first)?
        };
        if moved.count == 1 && ranks.may_lead(moved.last) {
            self.look(streams, moved.last);
        }
        if self.known {
            ranks.key = None;
        } else if streams.count() <= MOST && ranks.key.is_none() {
            ranks.rank(streams, place.key);
        }
        Ok(())
    }

    // Looks whether the stream with this number leads.
    #[tactic(auto, using(crate::proofs::merge_lemmas::LeadFacts::firsts))]
    #[inline(always)]
    fn look<G: Streams>(&mut self, streams: &G, number: usize)
        requires { number < length (G.streams streams.now) }
        ensures { self.new.known ≡ true
            → Leads G.behaviour (G.streams streams.now) self.new.number self.new.next }
    {
        let place = streams.address(number);
        self.number = number;
        self.next = None;
        self.known = false;
        for other in 0..streams.count() {
            if other != number {
                self.next = lower_next(&self.next, streams.address(other));
                if !is_below(place, &self.next) {
                    return;
                }
            }
        }
        self.known = is_below(place, &self.next);
    }
}

// Whether a stream that is here is below an address. If there is none, it is so anywhere.
#[inline(always)]
fn is_below(here: Option<&Address>, next: &Option<Address>) -> bool
    ensures { result ≡ true → IsBelowNext (option_copied here.entry) next.now }
{
    match (here, next) {
        (Some(here), Some(next)) => here.cmp(next).is_lt(),
        (Some(_), None) => true,
        _ => false,
    }
}

// The lower of two addresses, of which there may be one only, or none.
#[inline(always)]
fn lower_next(next: &Option<Address>, here: Option<&Address>) -> Option<Address>
    ensures { result ≡ lower_next next.now (option_copied here.entry) }
{
    let Some(here) = here else {
        return *next;
    };
    match next {
        Some(next) if next.cmp(here).is_lt() => Some(*next),
        _ => Some(*here),
    }
}
