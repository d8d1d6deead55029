//! Reads the header, the entries and the end of a journal from a source, field by field.
ghost use Rattle.std.specs.Prelude.{◌≡◌, ◌≢◌, ◌<◌, IfErr, length as length_of};
ghost use Rattle.std.specs.Io.KnownBytes.{Consumes, IsAtEnd};
ghost use Rattle.std.specs.List.{AllByRecursion};
ghost use Rattle.flute_journal.specs.Input.{Advances, Fails, Reads, StaysWithin};
ghost use Rattle.flute_journal.specs.Numbers.{in_bytes};
ghost use Rattle.flute_journal.specs.Format.{header_in, body, entry_in};
ghost use Rattle.flute_journal.specs.Faults.{header_fault};
ghost use Rattle.flute_journal.specs.Journal.{IsFactIn};
ghost use Rattle.flute_journal.specs.JournalFraming.{journal_framing};
ghost use Rattle.flute_journal.specs.Framing.{ReadsNext};
ghost use Rattle.flute_parts.specs.Ranges.{IsByte};
ghost use Rattle.flute_journal.specs.Parsing.{head_size, head_bytes, HeadIn, BodyIn, IsBody};
ghost use Rattle.flute_journal.specs.Parsing.{body_fault, cut_fault, end_fault};
ghost use Rattle.flute_journal.specs.declared.fault.ReadFault.TheVariants.{OutOfMemory};

use crate::fault::ReadFault;
use crate::format::{END, EntryHead, Kind, LONGEST, Version, check_end, check_header, parse};
use crate::readers::input::{read_exact, read_up_to};
use flute_parts::{Address, Bytes, Fact, Source};
use std::alloc::Global;

/// What is before the next entry of a journal.
#[derive(Drop)]
pub struct Before {
    /// The version of the journal.
    pub version: Version,
    /// How many entries.
    pub count: u64,
    /// The address of the last.
    pub last: Option<Address>,
}

/// Reads the magic number and the version.
#[inline(never)]
pub fn read_header<R: Source>(source: &mut R) -> Result<Version, ReadFault>
    ensures reads { Reads header_in (λ _. Unit {0}) header_fault (R.unread source.old)
        (R.unread source.new) result }
    ensures advances { Advances (R.unread source.old) (R.unread source.new) 6 }
    ensures memory { IfErr result (λ f. f ≢ OutOfMemory) }
    ensures failures { Fails (R.failures source.old) (R.failures source.new) result }
{
    let mut buffer = [0; 6];
    let read = read_up_to(source, &mut buffer);
    read.or_failed(check_header(read.bytes))
}

/// Reads the next entry or the end of a journal, field by field. The journal may have at most
/// `max_entries`.
#[inline(never)]
pub fn read_entry<R: Source>(
    alloc: Global,
    source: &mut R,
    max_entries: u64,
    before: &Before,
) -> Result<Option<Fact>, ReadFault>
    ensures reads { ReadsNext journal_framing max_entries before.now (R.unread source.old)
        (R.unread source.new) result }
    ensures within { StaysWithin (entry_in before.now.version) (IsFactIn before.now.version)
        (R.unread source.old) (R.unread source.new) result }
    ensures failures { Fails (R.failures source.old) (R.failures source.new) result }
{
    let mut buffer = [0; 1];
    let read = read_up_to(source, &mut buffer);
    let Some(&byte) = read.bytes.first() else {
        return read.or_failed(Err(ReadFault::Cut));
    };
    if byte == END {
        let mut buffer = [0; 9];
        let read = read_up_to(source, &mut buffer);
        read.or_failed(check_end(before.count, read.bytes))?;
        return Ok(None);
    }
    let Some(kind) = Kind::from_byte(byte) else {
        return Err(ReadFault::Kind);
    };
    if before.count >= max_entries {
        return Err(ReadFault::TooMany);
    }
    let fact = read_body(alloc, source, before.version, kind, before.last)?;
    Ok(Some(fact))
}

// Reads what follows the kind of an entry.
#[tactic(auto, using(crate::proofs::readers_lemmas::Bodies::body_stopped))]
fn read_body<R: Source>(
    alloc: Global,
    source: &mut R,
    version: Version,
    kind: Kind,
    last: Option<Address>,
) -> Result<Fact, ReadFault>
    ensures reads { Reads (body version) (BodyIn version last kind) (body_fault version last kind)
        (R.unread source.old) (R.unread source.new) result }
    ensures within { StaysWithin (body version) (IsBody version kind) (R.unread source.old)
        (R.unread source.new) result }
    ensures failures { Fails (R.failures source.old) (R.failures source.new) result }
{
    match read_head(source, version, kind, last)? {
        EntryHead::Whole(fact) => Ok(fact),
        EntryHead::Symbol { key, id, length } => {
            let Ok(bytes) = Bytes::from_vec(read_exact(alloc, source, length)?) else {
                unreachable!();
            };
            Ok(Fact::Symbol { key, id, bytes })
        }
    }
}

// Reads what follows the kind of an entry, up to the bytes of a symbol.
#[tactic(auto, using(crate::proofs::framing_lemmas::ReadsUpTo::parsed_fails))]
fn read_head<R: Source>(
    source: &mut R,
    version: Version,
    kind: Kind,
    last: Option<Address>,
) -> Result<EntryHead, ReadFault>
    ensures reads { Reads (head_bytes version) (HeadIn version last kind)
        (body_fault version last kind) (R.unread source.old) (R.unread source.new) result }
    ensures advances { Advances (R.unread source.old) (R.unread source.new)
        (head_size version kind) }
    ensures failures { Fails (R.failures source.old) (R.failures source.new) result }
{
    let mut buffer = [0; LONGEST];
    let read = read_up_to(source, &mut buffer[..kind.head_size(version)]);
    read.or_failed(parse(version, kind, &last, read.bytes))
}
