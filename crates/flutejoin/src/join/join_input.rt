//! The inputs of a join.
ghost use Rattle.std.specs.Prelude.{◌≡◌, IfSome, IfOk, IfErr};
ghost use Rattle.flute_journal.specs.declared.fault.ReadFault.TheVariants.{Read};
ghost use Rattle.flutejoin.specs.JoinInputs.{IsInput};

use crate::join::peeked_source::PeekedSource;
use crate::limits::MAX_ENTRIES;
use flute_journal::{Kind, LoadFault, ReadFault, kind_of};
use flute_parts::{Address, FactRef, Source};
use flute_streams::{Chosen, Objects, OwnedJournalStream, Scope, Stream};
use std::alloc::Global;

/// A journal of which some objects are taken.
pub type JournalInput<R> = Chosen<OwnedJournalStream<PeekedSource<R>>, Objects>;

/// An input of a join, of the kind that its first four bytes say.
#[derive(Drop)]
pub enum JoinInput<R> {
    /// A journal.
    Journal(JournalInput<R>),
    /// A datagram file.
    Datagrams(PeekedSource<R>),
    /// Neither of them.
    Unknown,
}

impl<R: Source + Drop> JoinInput<R> {
    /// The input that a source has left. Its first four bytes are read, or as many as it has.
    ///
    /// # Errors
    ///
    /// `Read` if the source fails.
    pub fn open(source: R) -> Result<JoinInput<R>, ReadFault>
        ensures input { IfOk result
            (λ input. IfSome (R.unread source) (IsInput R.unread input)) }
        ensures only { IfErr result (λ fault. fault ≡ Read) }
    {
        let source = PeekedSource::open(source)?;
        match kind_of(source.first()) {
            Some(Kind::Journal) => {
                let journal = OwnedJournalStream::new(source, MAX_ENTRIES);
                let all = Objects::of(Scope::all());
                Ok(JoinInput::Journal(Chosen::new(journal, all)))
            }
            Some(Kind::Datagrams) => Ok(JoinInput::Datagrams(source)),
            None => Ok(JoinInput::Unknown),
        }
    }
}

/// A journal gives its entries of the objects that are taken. Nothing else gives any.
impl<R: Source> Stream for JoinInput<R> {
    ghost use Rattle.flutejoin.specs.InputStreams.{input_behaviour};

    ghost behaviour = { input_behaviour R.unread R.buffered R.failures };

    #[inline(always)]
    fn head(&self) -> Option<FactRef<'_>> {
        match self {
            JoinInput::Journal(journal) => journal.head(),
            _ => None,
        }
    }

    #[inline(always)]
    fn address(&self) -> Option<&Address> {
        match self {
            JoinInput::Journal(journal) => journal.address(),
            _ => None,
        }
    }

    #[inline(always)]
    fn spelled(&self) -> &[u8] {
        match self {
            JoinInput::Journal(journal) => journal.spelled(),
            _ => &[],
        }
    }

    #[inline(always)]
    fn advance(&mut self, alloc: Global) -> Result<(), LoadFault> {
        match self {
            JoinInput::Journal(journal) => journal.advance(alloc),
            _ => Ok(()),
        }
    }
}
