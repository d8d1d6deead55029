//! The lines that `gaps` printed of a journal, read as far as they are asked about.
ghost use Rattle.std.specs.Prelude.{◌≡◌, ◌≢◌, ◌<◌, List, [], ◌++◌, OnOk, IfOk, IfErr};
ghost use Rattle.std.specs.Prelude.{◌^◌, option_copied};
ghost use Rattle.flutejoin.specs.FillStreams.{Stands, StopsAfter, asks_at, is_behind, line_of};
ghost use Rattle.flutejoin.specs.FillStreams.{NoNext, ReadsNext, after_last, before_of};
ghost use Rattle.flutejoin.specs.FillStreams.{lines_left};
ghost use Rattle.flutejoin.specs.declared.fill.gap_list.LastLine.TheVariants.{Unread, Ended};
ghost use Rattle.flutejoin.specs.declared.fill.listed_line.ListedLine.{ListedLine as LineValue};

use crate::fill::asking::Asking;
use crate::fill::listed_line::ListedLine;
use crate::fill::reading_lines::read_listed;
use crate::lines::next_words::{WordsFault, next_words};
use flute_parts::{Address, Key, Source};
use flute_store::Status;

/// Why the lines were not read on.
#[derive(Clone, Copy, Debug, PartialEq, Eq)]
pub enum GapListFault {
    /// The source failed.
    Read,
    /// The line with this number, from 1, is none that `gaps` prints there.
    Line(u64),
}

/// The line that was read last.
#[derive(Clone, Copy, Debug, PartialEq, Eq)]
pub enum LastLine {
    /// None was read yet.
    Unread,
    /// The line that was read last, and is not used up yet.
    Line(ListedLine),
    /// There is no further line.
    Ended,
}

impl LastLine {
    // The line, if one is held.
    fn line(&self) -> Option<&ListedLine>
        ensures { option_copied result ≡ before_of self.now }
    {
        match self {
            LastLine::Line(line) => Some(line),
            LastLine::Unread | LastLine::Ended => None,
        }
    }

    // The object, once the line is let go of, if one is held.
    fn object_after(&self, object: Option<ListedObject>) -> Option<ListedObject>
        ensures { result ≡ after_last object self.now }
    {
        match self {
            LastLine::Line(ListedLine::Object { key, status }) => Some(ListedObject {
                key: *key,
                status: *status,
            }),
            _ => object,
        }
    }
}

/// An object, and how much is held of it.
#[derive(Clone, Copy, Debug, PartialEq, Eq)]
pub struct ListedObject {
    pub key: Key,
    pub status: Status,
}

/// The lines that `gaps` printed, of which one is held, and the last object before it.
#[derive(Drop)]
pub struct GapList<R> {
    pub source: R,
    /// How many lines were read.
    number: u64,
    /// The object of the last line of one before the line that is held.
    object: Option<ListedObject>,
    /// The line that is held.
    last: LastLine,
}

impl<R: Source> GapList<R> {
    /// The lines that the source holds. Nothing of them is read yet.
    pub fn new(source: R) -> GapList<R>
        ensures source { result.source ≡ source }
        ensures fresh { result.last ≡ Unread }
        ensures stands { Stands R.unread R.failures result result [] }
    {
        GapList {
            source,
            number: 0,
            object: None,
            last: LastLine::Unread,
        }
    }

    /// Begins anew: the lines that are left in the source.
    pub fn restart(&mut self)
        ensures source { self.new.source ≡ self.old.source }
        ensures fresh { self.new.last ≡ Unread }
        ensures stands { Stands R.unread R.failures self.new self.new [] }
    {
        self.number = 0;
        self.object = None;
        self.last = LastLine::Unread;
    }

    /// Whether the next line is to be read before it is known whether what is at this address is
    /// asked for; at no address, whether one is left.
    pub fn is_behind(&self, at: Option<&Address>) -> bool
        ensures { result ≡ is_behind self.now.last (option_copied at.entry) }
    {
        match (&self.last, at) {
            (LastLine::Unread, _) | (LastLine::Line(_), None) => true,
            (LastLine::Ended, _) => false,
            (LastLine::Line(ListedLine::Object { key, .. }), Some(at)) => {
                key.cmp(&at.key).is_le()
            }
            (LastLine::Line(line), Some(at)) => line.ends().cmp(at).is_lt(),
        }
    }

    /// Whether what is at this address is asked for, by the lines that were read.
    pub fn asks(&self, asking: Asking, at: &Address) -> bool
        ensures { result ≡ asks_at asking self.now.object self.now.last at.now }
    {
        let is_missing = match &self.last {
            LastLine::Line(line) => line.is_missing(at),
            LastLine::Unread | LastLine::Ended => false,
        };
        let status = match &self.object {
            Some(object) if object.key == at.key => Some(object.status),
            _ => None,
        };
        asking.wants(status, is_missing, at.part)
    }

    /// Reads the next line, after which nothing is known of the one before.
    ///
    /// # Errors
    ///
    /// `Read` if the source failed; `Line` if the next line is none that `gaps` prints after those
    /// before: the lines are not to be read on then.
    pub fn advance(&mut self) -> Result<(), GapListFault>
        requires { self.old.last ≢ Ended }
        ensures reads { OnOk result ((start : GapList R) (passed : List LineValue)
            → Stands R.unread R.failures start self.old passed
            → Stands R.unread R.failures start self.new (passed ++ line_of self.old.last)) }
        ensures less { OnOk result (lines_left self.new.last self.new.number
            < lines_left self.old.last self.old.number) }
        ensures stops { IfErr result (λ fault. (start : GapList R) (passed : List LineValue)
            → Stands R.unread R.failures start self.old passed
            → StopsAfter R.unread R.failures start self.new fault) }
    {
        let next = self.read_next()?;
        self.object = self.last.object_after(self.object);
        self.last = next;
        Ok(())
    }

    // Reads the next line.
    fn read_next(&mut self) -> Result<LastLine, GapListFault>
        ensures same { (self.new.object ≡ self.old.object) × (self.new.last ≡ self.old.last) }
        ensures few { self.old.number < 2 ^ 64 }
        ensures reads { IfOk result (ReadsNext R.unread R.failures self.old self.new) }
        ensures none { IfErr result (NoNext R.unread R.failures self.old self.new) }
        ensures failures { OnOk result
            (R.failures self.new.source ≡ R.failures self.old.source) }
    {
        if self.number == u64::MAX {
            return Err(GapListFault::Line(u64::MAX));
        }
        let number = self.number + 1;
        let words = match next_words(&mut self.source) {
            Ok(Some(words)) => words,
            Ok(None) => return Ok(LastLine::Ended),
            Err(WordsFault::Read) => return Err(GapListFault::Read),
            Err(WordsFault::NoEnd) => return Err(GapListFault::Line(number)),
        };
        match read_listed(words.as_slice(), self.last.line()) {
            Some(line) => {
                self.number = number;
                Ok(LastLine::Line(line))
            }
            None => Err(GapListFault::Line(number)),
        }
    }
}
