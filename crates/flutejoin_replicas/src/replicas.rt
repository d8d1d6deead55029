//! `Replicas`: stores that take steps: datagrams, journals, and merges with each other.
ghost use Rattle.std.specs.Prelude.{◌≡◌, ◌++◌, ◌∷◌, [], ◌<◌, ◌≤◌, ◌+◌, ◌*◌, ◌^◌, ◌⊎◌, length};
ghost use Rattle.std.specs.Prelude.{if◌then◌else◌, IfOk, IfErr, OnOk, OnErr, IsOk, MatchOption};
ghost use Rattle.std.specs.Prelude.{slice_index};
ghost use Rattle.std.specs.List.{AllByRecursion};
ghost use Rattle.flute_parts.specs.Facts.{Same};
ghost use Rattle.flute_parts.specs.Limits.{Over};
ghost use Rattle.flute_store.specs.Held.{HasCell};
ghost use Rattle.flute_wire.specs.Reading.{facts};
ghost use Rattle.flutejoin_replicas.specs.Held.{capacity};
ghost use Rattle.flutejoin.specs.Refused.{is_refused};
ghost use Rattle.flutejoin_replicas.specs.Counts.{one_more};
ghost use Rattle.flutejoin_replicas.specs.Outcome.{IsDone, IsRefused, NeedsNothing};
ghost use Rattle.flutejoin_replicas.specs.Steps.{held_by};
ghost use Rattle.flutejoin_replicas.specs.Runs.{new_held, IsDriven};
ghost use Rattle.flutejoin_replicas.specs.declared.steps.Step.{Step as Doing};
ghost use Rattle.flutejoin_replicas.specs.declared.steps.Step.TheVariants as doing;
ghost use Rattle.flutejoin_replicas.specs.declared.steps.StepFault.TheVariants as faults;
ghost use Rattle.flute_join.specs.declared.refusal.JoinRefusal.TheVariants as refusals;

use crate::blob::Blob;
use crate::steps::{Step, StepFault};
use flute_join::JoinRefusal;
use flute_journal::{read_store, write_store};
use flute_parts::{Fact, MemorySink, MemorySource, Sender};
use flute_store::{Store, TakeFault};
use flute_wire::{Datagram, one_reading};
use flutejoin::MAX_ENTRIES;
use std::alloc::Global;
use std::marker::Model;
use std::mem;

/// A store, and the number of datagrams refused to it.
#[derive(Drop)]
struct Replica<const SESSIONS: u32, const OBJECTS: u32, const SYMBOLS: u32> {
    store: Store<SESSIONS, OBJECTS, SYMBOLS>,
    refused: u64,
}

impl<const SESSIONS: u32, const OBJECTS: u32, const SYMBOLS: u32> Replica<
    SESSIONS,
    OBJECTS,
    SYMBOLS,
> {
    // Takes a datagram of this sender, and counts it if it is refused.
    fn take(&mut self, alloc: Global, sender: Sender, datagram: &[u8]) -> Result<(), StepFault>
        ensures content { OnOk result
            (Same self.new.store (self.old.store ++ facts sender datagram.now)) }
        ensures counted { OnOk result (self.new.refused
            ≡ (if is_refused datagram.now then one_more self.old.refused else self.old.refused)) }
        ensures within { OnOk result (¬ Over self.new.store SESSIONS OBJECTS SYMBOLS) }
        ensures err { OnErr result (self.new ≡ self.old) }
        ensures sure { AllByRecursion (HasCell self.old.store) (facts sender datagram.now)
            → IsOk result }
        ensures fault { IfErr result (λ f. (f ≡ faults.Full
            × Over (self.old.store ++ facts sender datagram.now) SESSIONS OBJECTS SYMBOLS)
            ⊎ (f ≡ faults.OutOfMemory)) }
    {
        // From this the proof knows that a datagram is a packet or refused.
        one_reading();
        match self.store.take(alloc, sender, datagram) {
            Ok(_) => Ok(()),
            Err(TakeFault::Datagram(_)) => {
                self.refused = one_more(self.refused);
                Ok(())
            }
            Err(TakeFault::Full) => Err(StepFault::Full),
            Err(TakeFault::OutOfMemory) => Err(StepFault::OutOfMemory),
        }
    }
}

// One more, in a count that stays at its greatest.
fn one_more(count: u64) -> u64
    ensures { result ≡ one_more count }
{
    count.saturating_add(1)
}

/// A list of stores, numbered from 0, each with the number of datagrams refused to it.
#[derive(Drop)]
pub struct Replicas<const SESSIONS: u32, const OBJECTS: u32, const SYMBOLS: u32> {
    replicas: Vec<Replica<SESSIONS, OBJECTS, SYMBOLS>>,
}

impl<const SESSIONS: u32, const OBJECTS: u32, const SYMBOLS: u32> Model
    for Replicas<SESSIONS, OBJECTS, SYMBOLS> {
    ghost use Rattle.std.specs.Prelude.{map, length, ◌<◌, ◌^◌};
    ghost use Rattle.flutejoin_replicas.specs.Held.{Held};

    ghost Value = { Held };

    ghost view = { λ r. record {
      contents = map (λ x. x.store) r.replicas.items;
      refused = map (λ x. x.refused) r.replicas.items;
    } };

    ghost invariant = { λ r. length r.replicas.items < 2 ^ 32 };
}

impl<const SESSIONS: u32, const OBJECTS: u32, const SYMBOLS: u32> Replicas<
    SESSIONS,
    OBJECTS,
    SYMBOLS,
> {
    /// This many replicas that hold nothing.
    ///
    /// # Errors
    ///
    /// `OutOfMemory` if there is no memory for their list, and nothing else.
    pub fn new(alloc: Global, count: u32) -> Result<Self, JoinRefusal>
        ensures empty { IfOk result (λ r. r ≡ new_held count) }
        ensures fault { IfErr result (λ e. e ≡ refusals.OutOfMemory) }
    {
        let mut replicas = Vec::new(alloc);
        for _ in 0..count {
            let replica = Replica {
                store: Store::new(alloc),
                refused: 0,
            };
            if replicas.push(replica).is_err() {
                return Err(JoinRefusal::OutOfMemory);
            }
        }
        Ok(Replicas { replicas })
    }

    /// How many there are.
    pub fn count(&self) -> u32
        ensures { result ≡ length self.now.contents }
    {
        self.replicas.len() as u32
    }

    /// The store of a replica, None if it is not there.
    pub fn store(&self, replica: u32) -> Option<&Store<SESSIONS, OBJECTS, SYMBOLS>>
        ensures { MatchOption result (length self.now.contents ≤ replica)
            (λ s. (replica < length self.now.contents)
            × (s.now ≡ held_by self.now.contents replica)) }
    {
        let held = self.replicas.get(replica as usize)?;
        Some(&held.store)
    }

    /// How many datagrams were refused to a replica, None if it is not there. It stays at
    /// the greatest number.
    pub fn refused(&self, replica: u32) -> Option<u64>
        ensures { MatchOption result (length self.now.contents ≤ replica)
            (λ n. (replica < length self.now.contents)
            × (n ≡ slice_index self.now.refused replica)) }
    {
        let held = self.replicas.get(replica as usize)?;
        Some(held.refused)
    }

    // The place of a replica.
    fn place(&self, replica: u32) -> Result<usize, StepFault>
        ensures ok { IfOk result (λ i. (i ≡ replica) × (i < length self.now.contents)) }
        ensures err { IfErr result (λ e. (e ≡ faults.NoReplica)
            × (replica < length self.now.contents → ⊥)) }
    {
        let place = replica as usize;
        if place < self.replicas.len() {
            Ok(place)
        } else {
            Err(StepFault::NoReplica)
        }
    }

    fn take(
        &mut self,
        alloc: Global,
        replica: u32,
        sender: Sender,
        datagram: &Datagram,
    ) -> Result<(), StepFault>
        ensures done { OnOk result (IsDone (capacity SESSIONS OBJECTS SYMBOLS) self.old
            (doing.Take replica sender datagram.now) self.new) }
        ensures refused { IfErr result (IsRefused (capacity SESSIONS OBJECTS SYMBOLS) self.old
            (doing.Take replica sender datagram.now) self.new) }
        ensures sure { NeedsNothing self.old.contents (doing.Take replica sender datagram.now)
            → IsOk result }
    {
        let place = self.place(replica)?;
        let target = &mut self.replicas[place];
        target.take(alloc, sender, datagram.as_slice())
    }

    fn add(&mut self, alloc: Global, replica: u32, fact: &Fact) -> Result<(), StepFault>
        ensures done { OnOk result (IsDone (capacity SESSIONS OBJECTS SYMBOLS) self.old
            (doing.Add replica fact.now) self.new) }
        ensures refused { IfErr result (IsRefused (capacity SESSIONS OBJECTS SYMBOLS) self.old
            (doing.Add replica fact.now) self.new) }
        ensures sure { NeedsNothing self.old.contents (doing.Add replica fact.now) → IsOk result }
    {
        let place = self.place(replica)?;
        let target = &mut self.replicas[place];
        Ok(target.store.add(alloc, fact)?)
    }

    fn merge(&mut self, alloc: Global, into: u32, from: u32) -> Result<(), StepFault>
        ensures done { OnOk result (IsDone (capacity SESSIONS OBJECTS SYMBOLS) self.old
            (doing.Merge into from) self.new) }
        ensures refused { IfErr result (IsRefused (capacity SESSIONS OBJECTS SYMBOLS) self.old
            (doing.Merge into from) self.new) }
        ensures sure { NeedsNothing self.old.contents (doing.Merge into from) → IsOk result }
    {
        let into = self.place(into)?;
        let from = self.place(from)?;
        if into == from {
            self.replicas[into].store.keeps_order_and_limits();
            return Ok(());
        }
        let empty = Store::new(alloc);
        let mut target = mem::replace(&mut self.replicas[into].store, empty);
        let joined = target.absorb(alloc, &self.replicas[from].store);
        target.keeps_order_and_limits();
        self.replicas[into].store = target;
        Ok(joined?)
    }

    fn load(&mut self, alloc: Global, replica: u32, journal: &Blob) -> Result<(), StepFault>
        ensures done { OnOk result (IsDone (capacity SESSIONS OBJECTS SYMBOLS) self.old
            (doing.Load replica journal.now) self.new) }
        ensures refused { IfErr result (IsRefused (capacity SESSIONS OBJECTS SYMBOLS) self.old
            (doing.Load replica journal.now) self.new) }
    {
        let place = self.place(replica)?;
        let mut source = MemorySource::new(journal.as_slice());
        let store = read_store(alloc, &mut source, MAX_ENTRIES)?;
        let target = &mut self.replicas[place];
        let joined = target.store.absorb(alloc, &store);
        target.store.keeps_order_and_limits();
        Ok(joined?)
    }

    fn reopen(&mut self, alloc: Global, replica: u32) -> Result<(), StepFault>
        requires { SESSIONS * OBJECTS * (SYMBOLS + 1) < 2 ^ 64 }
        ensures done { OnOk result (IsDone (capacity SESSIONS OBJECTS SYMBOLS) self.old
            (doing.Reopen replica) self.new) }
        ensures refused { IfErr result (IsRefused (capacity SESSIONS OBJECTS SYMBOLS) self.old
            (doing.Reopen replica) self.new) }
    {
        let place = self.place(replica)?;
        let mut sink = MemorySink::new(alloc);
        let Ok(_entries) = write_store(&self.replicas[place].store, &mut sink) else {
            return Err(StepFault::OutOfMemory);
        };
        let mut source = MemorySource::new(sink.as_slice());
        let store = read_store(alloc, &mut source, MAX_ENTRIES)?;
        self.replicas[place].store = store;
        Ok(())
    }

    /// Does one step.
    ///
    /// A `Take` of a refused datagram succeeds: it gives nothing, and one more is counted. A `Load`
    /// reads its journal into a new store and joins that. A `Merge` of a replica into itself
    /// changes nothing and succeeds.
    ///
    /// # Errors
    ///
    /// - `NoReplica` if the step names a replica that is not there.
    /// - `Journal` with the first fault of a journal that a `Load` reads, after entries within
    ///   the limits, and with `TooMany` if a `Reopen` is of a replica at more than
    ///   16,777,216 addresses.
    /// - `Full` if the facts that the step gives pass the limits, or the entries do that a
    ///   `Load` begins with.
    /// - `OutOfMemory` if a request for memory was refused.
    ///
    /// A refused step leaves all replicas unchanged. Only a `Load` or a `Merge` that is refused
    /// by `Full` or `OutOfMemory` may leave a part of what it gives with its replica: no fact
    /// is lost, and none comes that the step does not give. The same step made again with
    /// success gives the whole.
    pub fn step(&mut self, alloc: Global, step: &Step) -> Result<(), StepFault>
        requires { SESSIONS * OBJECTS * (SYMBOLS + 1) < 2 ^ 64 }
        ensures done { OnOk result
            (IsDone (capacity SESSIONS OBJECTS SYMBOLS) self.old step.now self.new) }
        ensures refused { IfErr result
            (IsRefused (capacity SESSIONS OBJECTS SYMBOLS) self.old step.now self.new) }
        ensures sure { NeedsNothing self.old.contents step.now → IsOk result }
    {
        match step {
            Step::Take {
                replica,
                sender,
                datagram,
            } => self.take(alloc, *replica, *sender, datagram),
            Step::Load { replica, journal } => self.load(alloc, *replica, journal),
            Step::Add { replica, fact } => self.add(alloc, *replica, fact),
            Step::Merge { into, from } => self.merge(alloc, *into, *from),
            Step::Reopen { replica } => self.reopen(alloc, *replica),
        }
    }

    /// Does all the steps in turn, refused or not. `done` gets whether each succeeded.
    ///
    /// Each replica then has at least what the steps that succeeded gave it, and at most what all
    /// the steps give. If each refused step is followed directly by the same step, it has all of
    /// that. A step that takes no memory succeeds: without that clause, a body that stops at the
    /// first refusal and marks nothing would be proved.
    pub fn drive(&mut self, alloc: Global, steps: &[Step], done: &mut [bool])
        requires aligned { length steps.now ≡ length done.old }
        requires countable { SESSIONS * OBJECTS * (SYMBOLS + 1) < 2 ^ 64 }
        ensures { IsDriven self.old steps.now done.new self.new }
    {
        for (k, step) in steps.iter().enumerate() {
            done[k] = self.step(alloc, step).is_ok();
        }
    }
}
