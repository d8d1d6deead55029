//! A stream of those facts of another that gaps ask for.
ghost use Rattle.std.specs.Prelude.{◌≡◌, [], IfOk, IfErr};
ghost use Rattle.flute_streams.specs.Streams.{IsNew, StopsAt};
ghost use Rattle.flutejoin.specs.FillStreams.{Moves, Stands, Walks, filled_behaviour, turn_in};
ghost use Rattle.flutejoin.specs.declared.fill.gap_list.LastLine.TheVariants.{Unread};

use crate::fill::asking::Asking;
use crate::fill::gap_list::{GapList, GapListFault};
use flute_journal::{LoadFault, ReadFault};
use flute_parts::{Address, FactRef, Source};
use flute_streams::Stream;
use std::alloc::Global;

/// The facts of a stream that are asked for by the lines that `gaps` printed of a journal.
#[derive(Drop)]
pub struct Filled<S, R> {
    pub facts: S,
    pub list: GapList<R>,
    pub asking: Asking,
    /// Whether the facts were advanced.
    begun: bool,
    /// Why the lines were not read on, if that is why it has stopped.
    pub list_fault: Option<GapListFault>,
}

/// What goes on.
#[derive(Clone, Copy)]
pub enum Turn {
    /// Nothing: the fact that is held is asked for, or all was read.
    Stay,
    /// The facts: what is held is not asked for.
    Facts,
    /// The lines. So a fault of theirs is met in any case.
    Lines,
}

impl<S: Stream, R: Source> Filled<S, R> {
    /// What of these facts is asked for by these lines. It takes no memory.
    pub fn new(facts: S, list: GapList<R>, asking: Asking) -> Self
        requires facts { IsNew S.behaviour facts }
        requires list { Stands R.unread R.failures list list [] }
        requires fresh { list.last ≡ Unread }
        ensures facts { result.facts ≡ facts }
        ensures list { result.list ≡ list }
        ensures asking { result.asking ≡ asking }
        ensures new { IsNew (filled_behaviour S.behaviour R.unread R.failures) result }
    {
        Filled {
            facts,
            list,
            asking,
            begun: false,
            list_fault: None,
        }
    }

    /// Begins anew, once the facts and the lines were begun anew.
    pub fn restart(&mut self)
        requires facts { IsNew S.behaviour self.old.facts }
        requires list { Stands R.unread R.failures self.old.list self.old.list [] }
        requires fresh { self.old.list.last ≡ Unread }
        ensures facts { self.new.facts ≡ self.old.facts }
        ensures list { self.new.list ≡ self.old.list }
        ensures asking { self.new.asking ≡ self.old.asking }
        ensures new { IsNew (filled_behaviour S.behaviour R.unread R.failures) self.new }
    {
        self.begun = false;
        self.list_fault = None;
    }

    // Takes the first fact, or lets go of the fact that is held.
    #[inline(always)]
    fn begin(&mut self, alloc: Global) -> Result<(), LoadFault>
        ensures walks { IfOk result
            (λ _. Walks S.behaviour R.unread R.failures self.old self.new) }
        ensures stops { IfErr result
            (StopsAt (filled_behaviour S.behaviour R.unread R.failures) self.old self.new) }
    {
        if !self.begun {
            self.begun = true;
            self.facts.advance(alloc)?;
            return Ok(());
        }
        let Some(_) = self.facts.address() else {
            return Ok(());
        };
        self.facts.advance(alloc)?;
        Ok(())
    }

    // Whether the facts or the lines went on: no fact that is asked for is held.
    #[inline(always)]
    fn step(&mut self, alloc: Global) -> Result<bool, LoadFault>
        ensures moves { IfOk result (Moves S.behaviour R.unread R.failures self.old self.new) }
        ensures stops { IfErr result (λ fault. (x : Filled S R)
            → Walks S.behaviour R.unread R.failures x self.old
            → StopsAt (filled_behaviour S.behaviour R.unread R.failures) x self.new fault) }
    {
        match self.next_turn() {
            Turn::Stay => return Ok(false),
            Turn::Facts => self.facts.advance(alloc)?,
            Turn::Lines => {
                if let Err(fault) = self.list.advance() {
                    self.list_fault = Some(fault);
                    return Err(LoadFault::Read(ReadFault::Read));
                }
            }
        }
        Ok(true)
    }

    // What goes on.
    #[inline(always)]
    fn next_turn(&self) -> Turn
        ensures { result ≡ turn_in S.behaviour R.unread R.failures self.now }
    {
        let at = self.facts.address();
        if self.list.is_behind(at) {
            return Turn::Lines;
        }
        match at {
            Some(at) if !self.list.asks(self.asking, at) => Turn::Facts,
            _ => Turn::Stay,
        }
    }
}

impl<S: Stream, R: Source> Stream for Filled<S, R> {
    ghost behaviour = { filled_behaviour S.behaviour R.unread R.failures };

    #[inline(always)]
    fn head(&self) -> Option<FactRef<'_>> {
        self.facts.head()
    }

    #[inline(always)]
    fn address(&self) -> Option<&Address> {
        self.facts.address()
    }

    #[inline(always)]
    fn spelled(&self) -> &[u8] {
        self.facts.spelled()
    }

    fn advance(&mut self, alloc: Global) -> Result<(), LoadFault> {
        self.begin(alloc)?;
        while self.step(alloc)? {}
        Ok(())
    }
}
