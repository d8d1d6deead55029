//! A stream of what another stream would change by a join with it.
ghost use Rattle.std.specs.Prelude.{◌≡◌, IfOk, IfErr, Some, option_copied};
ghost use Rattle.flute_parts.specs.declared.fact.Fact.{Fact};
ghost use Rattle.flute_streams.specs.Minus.{has};
ghost use Rattle.flute_streams.specs.MinusStreams.{minus_behaviour, turn_of, Walks, Moves};
ghost use Rattle.flute_streams.specs.Streams.{IsNew, StopsAt, address_of};

use crate::merge::lowest::{is_same, order_of};
use crate::streams::stream::Stream;
use flute_journal::LoadFault;
use flute_parts::{Address, FactRef};
use std::alloc::Global;
use std::cmp::Ordering;

/// The facts of a stream that a join would change another by: the other has nothing at the
/// address, or one other value.
#[derive(Drop)]
pub struct Minus<S, T> {
    pub first: S,
    pub second: T,
    /// Whether both were advanced.
    pub begun: bool,
    /// If one of them has stopped: whether that is the second.
    pub in_second: bool,
}

impl<S: Stream, T: Stream> Minus<S, T> {
    /// What of the first a join would change the second by. It takes no memory.
    pub fn new(first: S, second: T) -> Self
        requires first { IsNew S.behaviour first }
        requires second { IsNew T.behaviour second }
        ensures first { result.first ≡ first }
        ensures second { result.second ≡ second }
        ensures new { IsNew (minus_behaviour S.behaviour T.behaviour) result }
    {
        Minus {
            first,
            second,
            begun: false,
            in_second: false,
        }
    }

    /// Begins anew, once both streams were begun anew.
    pub fn restart(&mut self)
        requires first { IsNew S.behaviour self.old.first }
        requires second { IsNew T.behaviour self.old.second }
        ensures first { self.new.first ≡ self.old.first }
        ensures second { self.new.second ≡ self.old.second }
        ensures new { IsNew (minus_behaviour S.behaviour T.behaviour) self.new }
    {
        self.begun = false;
        self.in_second = false;
    }

    // Takes the first facts, or lets go of the fact that is held.
    #[inline(always)]
    fn begin(&mut self, alloc: Global) -> Result<(), LoadFault>
        ensures walks { IfOk result (λ _. Walks S.behaviour T.behaviour self.old self.new) }
        ensures stops { IfErr result
            (StopsAt (minus_behaviour S.behaviour T.behaviour) self.old self.new) }
    {
        if !self.begun {
            self.begun = true;
            self.in_second = false;
            self.first.advance(alloc)?;
            self.in_second = true;
            self.second.advance(alloc)?;
            self.in_second = false;
            return Ok(());
        }
        let Some(_) = self.first.address() else {
            return Ok(());
        };
        self.first.advance(alloc)?;
        Ok(())
    }

    // Whether one of the streams went on: the first holds no fact that is left.
    #[inline(always)]
    fn step(&mut self, alloc: Global) -> Result<bool, LoadFault>
        ensures moves { IfOk result (Moves S.behaviour T.behaviour self.old self.new) }
        ensures stops { IfErr result (λ fault. (x : Minus S T)
            → Walks S.behaviour T.behaviour x self.old
            → StopsAt (minus_behaviour S.behaviour T.behaviour) x self.new fault) }
    {
        match next_turn(&self.first, &self.second) {
            Turn::Stay => return Ok(false),
            Turn::First => self.first.advance(alloc)?,
            Turn::Second => {
                self.in_second = true;
                self.second.advance(alloc)?;
                self.in_second = false;
            }
        }
        Ok(true)
    }
}

impl<S: Stream, T: Stream> Stream for Minus<S, T> {
    ghost behaviour = { minus_behaviour S.behaviour T.behaviour };

    #[inline(always)]
    fn head(&self) -> Option<FactRef<'_>> {
        self.first.head()
    }

    #[inline(always)]
    fn address(&self) -> Option<&Address> {
        self.first.address()
    }

    #[inline(always)]
    fn spelled(&self) -> &[u8] {
        self.first.spelled()
    }

    fn advance(&mut self, alloc: Global) -> Result<(), LoadFault> {
        self.begin(alloc)?;
        while self.step(alloc)? {}
        Ok(())
    }
}

/// Which of two streams goes on.
#[derive(Clone, Copy)]
pub enum Turn {
    /// None: the first holds a fact that is left, or both have ended.
    Stay,
    /// The first: a join with what it holds changes nothing.
    First,
    /// The second: what it holds is before what the first holds, or the first has ended. So a
    /// fault of the second is met in any case.
    Second,
}

// Which of two streams goes on.
#[inline(always)]
fn next_turn<S: Stream, T: Stream>(first: &S, second: &T) -> Turn
    ensures { result ≡ turn_of (S.behaviour.held first.now) (T.behaviour.held second.now) }
{
    match (first.address(), second.address()) {
        (_, None) => Turn::Stay,
        (None, Some(_)) => Turn::Second,
        (Some(place), Some(other)) => match order_of(Some(place), Some(other)) {
            Ordering::Less => Turn::Stay,
            Ordering::Greater => Turn::Second,
            Ordering::Equal => {
                if has_fact(second, first) {
                    Turn::First
                } else {
                    Turn::Stay
                }
            }
        },
    }
}

// Whether a join of what the one stream holds with what the other holds there changes nothing.
#[inline(always)]
fn has_fact<S: Stream, T: Stream>(one: &S, other: &T) -> bool
    requires place { address_of (S.behaviour.held one.now)
        ≡ address_of (T.behaviour.held other.now) }
    ensures { (g f : Fact) → S.behaviour.held one.now ≡ Some g
        → T.behaviour.held other.now ≡ Some f → result ≡ has (Some g) f }
{
    match (one.head(), other.head()) {
        (Some(FactRef::InfoConflict { .. } | FactRef::SymbolConflict { .. }), Some(_)) => true,
        (Some(value), Some(fact)) => is_same(&fact, &value),
        _ => false,
    }
}
