//! Fills buffers from a source, which hands its bytes out in any pieces.
ghost use Rattle.std.specs.Prelude.{◌≡◌, ℕ, ◌+◌, ◌<◌, ◌≤◌, IfOk, IfErr};
ghost use Rattle.std.specs.Prelude.{length, length as length_of, take, slice_index};
ghost use Rattle.std.specs.List.{AllByRecursion};
ghost use Rattle.flute_journal.specs.Input.{Advances, Fails, Fills, ReadsUpTo, Reads};
ghost use Rattle.flute_journal.specs.Input.{or_failed};
ghost use Rattle.flute_parts.specs.Devices.{times_failed};
ghost use Rattle.flute_parts.specs.Ranges.{IsByte};
ghost use Rattle.flute_journal.specs.FileFraming.{IsFileFault};
ghost use Rattle.flute_journal.specs.Parsing.{cut_fault};
ghost use Rattle.flute_journal.specs.declared.fault.ReadFault.TheVariants.{Read};

use crate::fault::ReadFault;
use flute_parts::Source;
use std::alloc::Global;

/// What was read of a source up to some number of bytes: so many, or fewer at the end of the input
/// or if the source failed.
#[derive(Drop)]
pub struct ReadUpTo<'b> {
    /// The bytes.
    pub bytes: &'b [u8],
    /// Whether the source failed after them.
    pub failed: bool,
}

impl ReadUpTo<'_> {
    /// What was found in the bytes; but if the source failed after them, a fault that they have
    /// other than `Cut`, and else `Read`.
    pub fn or_failed<T: Drop>(&self, found: Result<T, ReadFault>) -> Result<T, ReadFault>
        ensures { result ≡ or_failed self.now.failed found }
    {
        if !self.failed {
            return found;
        }
        match found {
            Ok(_) | Err(ReadFault::Cut) => Err(ReadFault::Read),
            Err(fault) => Err(fault),
        }
    }
}

/// Reads until the buffer is full, up to the end of the input, or until the source fails.
pub fn read_up_to<'b, R: Source>(source: &mut R, buffer: &'b mut [u8]) -> ReadUpTo<'b>
    ensures filled { ReadsUpTo (R.unread source.old) (R.unread source.new)
        (length buffer.old) result.failed result.bytes.now }
    ensures advances { Advances (R.unread source.old) (R.unread source.new) (length buffer.old) }
    ensures failures { R.failures source.new ≡ R.failures source.old + times_failed result.failed }
{
    let (count, failed) = fill_up_to(source, buffer);
    ReadUpTo {
        bytes: &buffer[..count],
        failed,
    }
}

/// Reads until the buffer is full, or up to the end of the input, and returns how
/// many bytes were read.
///
/// # Errors
///
/// `Read` if the source fails, and nothing else. The buffer may hold anything then.
pub fn fill<R: Source>(source: &mut R, buffer: &mut [u8]) -> Result<usize, ReadFault>
    ensures filled { IfOk result (λ count. (count ≤ length buffer.new) × Fills (R.unread source.old)
        (R.unread source.new) (length buffer.new) (take count buffer.new)) }
    ensures octets { (i : ℕ) → slice_index buffer.new i < 256 }
    ensures only { IfErr result (λ f. f ≡ Read) }
    ensures advances { Advances (R.unread source.old) (R.unread source.new) (length buffer.new) }
    ensures failures { Fails (R.failures source.old) (R.failures source.new) result }
{
    match fill_up_to(source, buffer) {
        (count, false) => Ok(count),
        (_, true) => Err(ReadFault::Read),
    }
}

// Reads until the buffer is full, up to the end of the input, or until the source fails. Returns
// how many bytes were read, and whether the source failed.
fn fill_up_to<R: Source>(source: &mut R, buffer: &mut [u8]) -> (usize, bool)
    ensures filled { ReadsUpTo (R.unread source.old) (R.unread source.new)
        (length buffer.new) result.1 (take result.0 buffer.new) }
    ensures within { result.0 ≤ length buffer.new }
    ensures size { length buffer.new ≡ length buffer.old }
    ensures octets { (i : ℕ) → slice_index buffer.new i < 256 }
    ensures failures { R.failures source.new ≡ R.failures source.old + times_failed result.1 }
{
    let mut filled = 0;
    while filled < buffer.len() {
        match source.read(&mut buffer[filled..]) {
            Ok(0) => break,
            Ok(count) => filled += count,
            Err(_) => return (filled, true),
        }
    }
    (filled, false)
}

/// Reads so many bytes, into memory of their own, which is asked for before anything is read.
#[tactic(auto, using(crate::proofs::framing_lemmas::ReadsUpTo::asks_bytes))]
pub fn read_exact<R: Source>(
    alloc: Global,
    source: &mut R,
    length: u16,
) -> Result<Vec<u8>, ReadFault>
    ensures reads { Reads (λ v. v.items) (λ v. (length_of v.items ≡ length) × AllByRecursion IsByte
        v.items) (cut_fault length) (R.unread source.old) (R.unread source.new) result }
    ensures advances { Advances (R.unread source.old) (R.unread source.new) length }
    ensures faults { IfErr result IsFileFault }
    ensures failures { Fails (R.failures source.old) (R.failures source.new) result }
{
    let Ok(mut octets) = vec![in alloc; 0; usize::from(length)] else {
        return Err(ReadFault::OutOfMemory);
    };
    match fill_up_to(source, &mut octets) {
        (count, _) if count == usize::from(length) => Ok(octets),
        (_, true) => Err(ReadFault::Read),
        (_, false) => Err(ReadFault::Cut),
    }
}
