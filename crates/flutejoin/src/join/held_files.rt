//! The facts of datagram files, held in a store or put aside.
ghost use Rattle.std.specs.Prelude.{◌≡◌, true, false, ◌<◌, ◌+◌, ◌^◌, List, ℕ, ◌∷◌, []};
ghost use Rattle.std.specs.Prelude.{OnOk, IfErr, IfSome};
ghost use Rattle.flute_journal.specs.Records.{IsFileWithin};
ghost use Rattle.flutejoin.specs.declared.limits.TheConstants.{MAX_ENTRIES};
ghost use Rattle.flutejoin.specs.declared.command_fault.CommandFault.TheVariants as faults;
ghost use Rattle.flutejoin.specs.Joined.{Choice, choice_of};
ghost use Rattle.flutejoin.specs.Asides.{Makes, PutsAside};
ghost use Rattle.flutejoin.specs.JoinParts.{HoldsDatagrams, HoldsMore, IsSound};
ghost use Rattle.flutejoin.specs.JoinParts.{CountsUpTo, FileFails};
ghost use Rattle.flutejoin.specs.Limits.{IsCountable, at_most};
ghost use Rattle.flutejoin.specs.Show.{FailsToRead};

use crate::aside::Asides;
use crate::command_fault::{CommandFault, at_input};
use crate::join::held_size::{HeldSize, bytes_of};
use crate::join::joined::Joined;
use crate::join::reasons::Reasons;
use crate::join::runs::{MAX_RUNS, add_run, merge_beyond};
use crate::limits::MAX_ENTRIES;
use flute_join::JoinRefusal;
use flute_journal::laws::a_file_is_read_record_by_record;
use flute_journal::{DatagramReader, write_store};
use flute_parts::{Sender, Source};
use flute_store::Store;
use flute_streams::{Objects, OwnedJournalStream};
use flute_wire::read;
use std::alloc::Global;

/// The facts of datagram files.
#[derive(Drop)]
pub(crate) struct HeldFiles<const SESSIONS: u32, const OBJECTS: u32, const SYMBOLS: u32, R> {
    /// Their facts that are in memory, and how many datagrams they have. If the facts are over the
    /// limits, a part of them.
    pub(crate) told: Joined<SESSIONS, OBJECTS, SYMBOLS>,
    /// Whether all the facts are held.
    pub(crate) fits: bool,
    /// How many of the datagrams are refused for each reason.
    pub(crate) reasons: Reasons,
    /// How many of the datagrams are of other objects.
    pub(crate) others: u64,
    /// The facts that were put aside.
    pub(crate) runs: Vec<OwnedJournalStream<R>>,
    /// About how many bytes may be in memory.
    memory: u64,
    /// At most about so many are.
    size: HeldSize,
}

impl<const SESSIONS: u32, const OBJECTS: u32, const SYMBOLS: u32, R: Source + Drop> HeldFiles<
    SESSIONS,
    OBJECTS,
    SYMBOLS,
    R,
> {
    // No datagrams, and room for about so many bytes of them.
    pub(crate) fn new(alloc: Global, memory: u64) -> Self
        ensures held { (choice : Choice) → HoldsDatagrams R.unread R.buffered choice result [] }
        ensures sound { IsSound R.unread R.buffered R.failures result }
        ensures none { result.told.datagrams ≡ 0 }
    {
        HeldFiles {
            told: Joined {
                store: Store::new(alloc),
                datagrams: 0,
                refused: 0,
            },
            fits: true,
            reasons: Reasons::new(),
            others: 0,
            runs: Vec::new(alloc),
            memory,
            size: HeldSize::none(),
        }
    }

    // Takes a datagram of this sender, if what came before was held, and it is of one of these
    // objects.
    fn take(
        &mut self,
        alloc: Global,
        sender: Sender,
        objects: &Objects,
        datagram: &[u8],
    ) -> Result<(), CommandFault>
        requires room { self.now.told.datagrams + 1 < 2 ^ 64 }
        requires sound { IsSound R.unread R.buffered R.failures self.now }
        ensures taken { OnOk result (HoldsMore R.unread R.buffered
            (choice_of (at_most SESSIONS OBJECTS SYMBOLS) sender objects.now) self.old self.new
            (datagram.now ∷ [])) }
        ensures few { OnOk result (CountsUpTo R.unread R.buffered R.failures 1 self.old self.new) }
        ensures some { OnOk result (self.new.fits ≡ true → 0 < self.new.told.datagrams) }
        ensures runs { self.new.runs ≡ self.old.runs }
        ensures memory { IfErr result (λ fault. fault ≡ faults.OutOfMemory) }
    {
        if !self.fits {
            return Ok(());
        }
        match read(datagram) {
            Ok(packet) if objects.takes(&packet.key(sender)) => {
                match self.told.store.take_packet(alloc, sender, &packet) {
                    Ok(taken) => self
                        .size
                        .grow(packet.key(sender), taken.facts, datagram.len()),
                    Err(JoinRefusal::Full) => {
                        self.fits = false;
                        return Ok(());
                    }
                    Err(JoinRefusal::OutOfMemory) => return Err(CommandFault::OutOfMemory),
                }
            }
            Ok(_) => self.others += 1,
            Err(why) => {
                self.told.refused += 1;
                self.reasons.add(why);
            }
        }
        self.told.datagrams += 1;
        Ok(())
    }

    // Makes room for the next datagram: if the store may have grown beyond the memory that is
    // given, and fills half of it, it is put aside.
    fn make_room<A: Asides<Input = R>>(
        &mut self,
        alloc: Global,
        asides: &mut A,
    ) -> Result<(), CommandFault>
        requires countable { IsCountable SESSIONS OBJECTS SYMBOLS }
        requires sound { IsSound R.unread R.buffered R.failures self.old }
        requires some { self.old.fits ≡ true → 0 < self.old.told.datagrams }
        ensures held { A.tells asides.old ≡ true
            → (choice : Choice) → OnOk result (HoldsMore R.unread R.buffered choice self.old
            self.new []) }
        ensures few { OnOk result (CountsUpTo R.unread R.buffered R.failures 0 self.old self.new) }
        ensures failed { IfErr result (λ fault. fault ≡ faults.CannotPutAside) }
        ensures same_tells { A.tells asides.new ≡ A.tells asides.old }
        ensures made { Makes (A.made asides.old) (A.made asides.new) result }
        ensures put { OnOk result (PutsAside (A.made asides.old) (A.made asides.new)
            self.old.runs.items self.new.runs.items) }
    {
        if self.size.bytes <= self.memory || !self.fits {
            return Ok(());
        }
        self.size.bytes = bytes_of(&self.told.store);
        if self.size.bytes <= self.memory / 2 {
            return Ok(());
        }
        self.put_aside(alloc, asides)
    }

    // Puts the store aside. It is empty then.
    fn put_aside<A: Asides<Input = R>>(
        &mut self,
        alloc: Global,
        asides: &mut A,
    ) -> Result<(), CommandFault>
        requires countable { IsCountable SESSIONS OBJECTS SYMBOLS }
        requires sound { IsSound R.unread R.buffered R.failures self.old }
        requires fits { self.old.fits ≡ true }
        requires some { 0 < self.old.told.datagrams }
        ensures held { A.tells asides.old ≡ true
            → (choice : Choice) → OnOk result (HoldsMore R.unread R.buffered choice self.old
            self.new []) }
        ensures empty { OnOk result (self.new.told.store ≡ []) }
        ensures counts { OnOk result ((self.new.told.datagrams ≡ self.old.told.datagrams)
            × (self.new.told.refused ≡ self.old.told.refused)
            × (self.new.reasons ≡ self.old.reasons) × (self.new.others ≡ self.old.others)) }
        ensures fits { OnOk result (self.new.fits ≡ true) }
        ensures few { OnOk result (CountsUpTo R.unread R.buffered R.failures 0 self.old self.new) }
        ensures failed { IfErr result (λ fault. fault ≡ faults.CannotPutAside) }
        ensures same_tells { A.tells asides.new ≡ A.tells asides.old }
        ensures made { A.made asides.old < A.made asides.new }
        ensures put { OnOk result (PutsAside (A.made asides.old) (A.made asides.new)
            self.old.runs.items self.new.runs.items) }
    {
        merge_beyond(alloc, asides, MAX_RUNS - 1, &mut self.runs)?;
        let Ok(mut aside) = asides.aside() else {
            return Err(CommandFault::CannotPutAside);
        };
        // By this the proof knows that the store's facts are the entries of its journal.
        self.told.store.keeps_order_and_limits();
        let Ok(entries) = write_store(&self.told.store, &mut aside) else {
            return Err(CommandFault::CannotPutAside);
        };
        add_run(asides, aside, entries, &mut self.runs)?;
        self.told.store = Store::new(alloc);
        self.size = HeldSize::none();
        Ok(())
    }

    /// Takes the datagrams that the source holds as a file, at most 16,777,216, of these objects
    /// of this sender. It is read record by record, and one record of it is held besides their
    /// facts.
    ///
    /// # Errors
    ///
    /// `Input` with the number and the fault of the file, or if the source failed or there was no
    /// memory for a datagram; `OutOfMemory` if there was none for its facts; `CannotPutAside`.
    pub(crate) fn read<S: Source, A: Asides<Input = R>>(
        &mut self,
        alloc: Global,
        asides: &mut A,
        number: usize,
        sender: Sender,
        objects: &Objects,
        source: &mut S,
    ) -> Result<(), CommandFault>
        requires countable { IsCountable SESSIONS OBJECTS SYMBOLS }
        requires room { self.now.told.datagrams < 2 ^ 63 }
        requires sound { IsSound R.unread R.buffered R.failures self.now }
        ensures held { A.tells asides.old ≡ true → OnOk result (IfSome (S.unread source.old)
            (λ bytes. (datagrams : List (List ℕ)) × IsFileWithin MAX_ENTRIES bytes datagrams
            × HoldsMore R.unread R.buffered (choice_of (at_most SESSIONS OBJECTS SYMBOLS) sender
            objects.now)
            self.old self.new datagrams)) }
        ensures few { OnOk result (CountsUpTo R.unread R.buffered R.failures MAX_ENTRIES self.old
            self.new) }
        ensures failed { IfErr result (FileFails number (S.unread source.old)) }
        ensures failures { FailsToRead (S.failures source.old) (S.failures source.new) result }
        ensures same_tells { A.tells asides.new ≡ A.tells asides.old }
        ensures made { Makes (A.made asides.old) (A.made asides.new) result }
        ensures put { OnOk result (PutsAside (A.made asides.old) (A.made asides.new)
            self.old.runs.items self.new.runs.items) }
    {
        // By this the proof knows what the records so far are of the file.
        a_file_is_read_record_by_record();
        let mut reader = DatagramReader::new(source, MAX_ENTRIES);
        let mut spare = Vec::new(alloc);
        while let Some(datagram) = at_input(number, reader.next_with(alloc, spare))? {
            self.take(alloc, sender, objects, datagram.as_slice())?;
            spare = datagram.into_vec();
            self.make_room(alloc, asides)?;
        }
        Ok(())
    }
}
