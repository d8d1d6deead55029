//! `DatagramReader`: reads a datagram file, record by record.
ghost use Rattle.std.specs.Prelude.{◌≡◌, ◌≢◌, ◌+◌, ◌<◌, IfErr};
ghost use Rattle.std.specs.Prelude.{length as length_of};
ghost use Rattle.std.specs.List.{AllByRecursion};
ghost use Rattle.flute_parts.specs.BigEndian.{big_endian};
ghost use Rattle.flute_journal.specs.Numbers.{in_bytes};
ghost use Rattle.flute_journal.specs.Input.{Advances, Fails, FailsIf, Reads, StaysWithin};
ghost use Rattle.flute_parts.specs.Ranges.{IsByte};
ghost use Rattle.flute_journal.specs.Faults.{opening_fault};
ghost use Rattle.flute_journal.specs.Parsing.{cut_fault};
ghost use Rattle.flute_journal.specs.Records.{file_header, record_of, IsDatagram};
ghost use Rattle.flute_journal.specs.FileFraming.{IsFileFault, file_framing};
ghost use Rattle.flute_journal.specs.Framing.{is_open, Gives, ReadsNext};
ghost use Rattle.flute_journal.specs.DatagramReaders.{datagrams_source_of, records_limit_of};
ghost use Rattle.flute_journal.specs.DatagramReaders.{file_stage_of};
ghost use Rattle.flute_journal.specs.declared.fault.ReadFault.TheVariants.{OutOfMemory};
ghost use Rattle.flute_journal.specs.declared.readers.reader_state.ReaderState.TheVariants as ReaderState;

use crate::fault::ReadFault;
use crate::format::check_opening;
use crate::format::number::length_in;
use crate::readers::input::{read_exact, read_up_to};
use crate::readers::lent::take_record;
use crate::readers::reader_state::ReaderState;
use flute_parts::Source;
use flute_wire::Datagram;
use std::alloc::Global;

/// The bytes of the header: `FLDG`, and the version.
pub const FILE_HEADER: [u8; 6] = *b"FLDG\x00\x01";

/// A datagram file that is read record by record. It never reads past what it has given.
#[derive(Drop)]
pub struct DatagramReader<'a, R> {
    source: &'a mut R,
    max_records: u64,
    state: ReaderState<u64>,
}

impl<'a, R: Source> DatagramReader<'a, R> {
    /// A reader of the datagram file that the source holds, which may have at most `max_records`
    /// records. It takes no memory, and reads nothing yet.
    pub fn new(source: &'a mut R, max_records: u64) -> DatagramReader<'a, R>
        ensures source { (datagrams_source_of result).ghost_name ≡ source.entry.ghost_name }
        ensures unread { (datagrams_source_of result).now ≡ source.old }
        ensures limit { records_limit_of result ≡ max_records }
        ensures state { file_stage_of result ≡ ReaderState.Header }
    {
        DatagramReader {
            source,
            max_records,
            state: ReaderState::Header,
        }
    }

    /// The next datagram, of 0 to 65,535 bytes, whatever they say. None once the input ends between
    /// two records, and from then on.
    ///
    /// A record that is whole in the source's buffer is read there; any other is read field by
    /// field. The bytes of the datagram are the only memory that is taken.
    ///
    /// # Errors
    ///
    /// - `Magic` and `Version` of the header;
    /// - `TooMany` if a byte follows `max_records` records;
    /// - `Cut` if the input ends within the header or a record;
    /// - `Read` if the source fails in this call, and `OutOfMemory` if there is no memory for a
    ///   datagram.
    ///
    /// What was read before the source failed is checked first: `Read` is returned if the fault
    /// would be `Cut` with the input ended there, or if it would end between two records. Nothing
    /// after the header and one record was read.
    ///
    /// Each later call returns the same fault, and reads nothing.
    pub fn next(&mut self, alloc: Global) -> Result<Option<Datagram>, ReadFault>
        ensures source { (datagrams_source_of self.new).ghost_name
            ≡ (datagrams_source_of self.old).ghost_name }
        ensures limit { records_limit_of self.new ≡ records_limit_of self.old }
        ensures gives { Gives file_framing (records_limit_of self.old) (file_stage_of self.old)
            (file_stage_of self.new)
            (R.unread (datagrams_source_of self.old).now)
            (R.unread (datagrams_source_of self.new).now) result }
        ensures failures { FailsIf (is_open (file_stage_of self.old))
            (R.failures (datagrams_source_of self.old).now)
            (R.failures (datagrams_source_of self.new).now) result }
    {
        self.next_with(alloc, Vec::new(alloc))
    }

    /// The same, but the bytes of a datagram that is looked at in the source's buffer are put into
    /// the memory of `spare`: a caller that lets go of each datagram before it reads the next hands
    /// its vector on, and memory is taken only where that is too small, or for a datagram that is
    /// read field by field.
    #[tactic(auto, using(crate::proofs::readers_lemmas::FileCalls::gives_next))]
    #[inline(always)]
    pub fn next_with(
        &mut self,
        alloc: Global,
        spare: Vec<u8>,
    ) -> Result<Option<Datagram>, ReadFault>
        ensures source { (datagrams_source_of self.new).ghost_name
            ≡ (datagrams_source_of self.old).ghost_name }
        ensures limit { records_limit_of self.new ≡ records_limit_of self.old }
        ensures gives { Gives file_framing (records_limit_of self.old) (file_stage_of self.old)
            (file_stage_of self.new)
            (R.unread (datagrams_source_of self.old).now)
            (R.unread (datagrams_source_of self.new).now) result }
        ensures failures { FailsIf (is_open (file_stage_of self.old))
            (R.failures (datagrams_source_of self.old).now)
            (R.failures (datagrams_source_of self.new).now) result }
    {
        let count = match self.state {
            ReaderState::Ended => return Ok(None),
            ReaderState::Failed(fault) => return Err(fault),
            ReaderState::Header => match read_header(self.source) {
                Ok(()) => 0,
                Err(fault) => {
                    self.state = ReaderState::Failed(fault);
                    return Err(fault);
                }
            },
            ReaderState::Items(count) => count,
        };
        let given = read_record(alloc, self.source, self.max_records, count, spare);
        self.state = match &given {
            Ok(Some(_)) => ReaderState::Items(count + 1),
            Ok(None) => ReaderState::Ended,
            Err(fault) => ReaderState::Failed(*fault),
        };
        given
    }
}

// Reads the magic number and the version.
#[tactic(auto, using(crate::proofs::Cited::parsed_fails, crate::proofs::Cited::parsed_memory))]
fn read_header<R: Source>(source: &mut R) -> Result<(), ReadFault>
    ensures reads { Reads (λ _. file_header) (λ _. Unit {0}) (opening_fault file_header)
        (R.unread source.old) (R.unread source.new) result }
    ensures advances { Advances (R.unread source.old) (R.unread source.new) 6 }
    ensures memory { IfErr result (λ f. f ≢ OutOfMemory) }
    ensures faults { IfErr result IsFileFault }
    ensures failures { Fails (R.failures source.old) (R.failures source.new) result }
{
    let mut buffer = [0; 6];
    let read = read_up_to(source, &mut buffer);
    read.or_failed(check_opening(&FILE_HEADER, read.bytes))
}

// Reads the next record after so many, if a byte follows. A file may have `max_records`. The bytes
// of a datagram that is looked at in the source's buffer are put into the memory of `spare`.
#[inline(always)]
fn read_record<R: Source>(
    alloc: Global,
    source: &mut R,
    max_records: u64,
    count: u64,
    spare: Vec<u8>,
) -> Result<Option<Datagram>, ReadFault>
    ensures reads { ReadsNext file_framing max_records count (R.unread source.old)
        (R.unread source.new) result }
    ensures within { StaysWithin record_of IsDatagram (R.unread source.old)
        (R.unread source.new) result }
    ensures faults { IfErr result IsFileFault }
    ensures failures { Fails (R.failures source.old) (R.failures source.new) result }
{
    if count < max_records {
        match take_record(source, spare) {
            Ok(None) => {}
            taken => return taken,
        }
    }
    read_fields(alloc, source, max_records, count)
}

// Reads the next record field by field, into memory of its own.
#[tactic(auto, using(crate::proofs::framing_lemmas::Records::record_reads))]
#[inline(never)]
fn read_fields<R: Source>(
    alloc: Global,
    source: &mut R,
    max_records: u64,
    count: u64,
) -> Result<Option<Datagram>, ReadFault>
    ensures reads { ReadsNext file_framing max_records count (R.unread source.old)
        (R.unread source.new) result }
    ensures within { StaysWithin record_of IsDatagram (R.unread source.old)
        (R.unread source.new) result }
    ensures faults { IfErr result IsFileFault }
    ensures failures { Fails (R.failures source.old) (R.failures source.new) result }
{
    let mut buffer = [0; 2];
    let read = read_up_to(source, &mut buffer);
    if read.bytes.is_empty() {
        return read.or_failed(Ok(None));
    }
    if count >= max_records {
        return Err(ReadFault::TooMany);
    }
    if read.bytes.len() < 2 {
        return read.or_failed(Err(ReadFault::Cut));
    }
    let length = length_in(read.bytes);
    let Ok(datagram) = Datagram::from_vec(read_exact(alloc, source, length)?) else {
        unreachable!();
    };
    Ok(Some(datagram))
}
