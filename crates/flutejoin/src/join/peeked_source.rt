//! A source of which the first bytes were read ahead.
ghost use Rattle.std.specs.Prelude.{◌≡◌, ◌≤◌, length, take, IfOk, IfErr};
ghost use Rattle.flute_journal.specs.declared.fault.ReadFault.TheVariants.{Read};
ghost use Rattle.flutejoin.specs.Begins.{Begins};

use flute_journal::{ReadFault, fill};
use flute_parts::{DeviceFault, Source};

/// A source that gives the first bytes of an input, which were read ahead, and then those that
/// are left of it. It takes no memory.
#[derive(Drop)]
pub struct PeekedSource<R> {
    /// The first bytes: four, or as many as the input has.
    first: [u8; 4],
    /// How many they are.
    count: usize,
    /// How many of them were given.
    given: usize,
    source: R,
}

impl<R> PeekedSource<R> {
    // The first bytes, at most four.
    pub(crate) fn first(&self) -> &[u8]
        ensures bytes { result.now ≡ take self.now.count self.now.first }
        ensures few { length result.now ≤ 4 }
    {
        &self.first[..self.count.min(4)]
    }
}

impl<R: Source + Drop> PeekedSource<R> {
    // Reads the first four bytes of a source, or as many as it has, of which none is given yet.
    //
    // # Errors
    //
    // `Read` if the source fails, and nothing else.
    pub(crate) fn open(source: R) -> Result<PeekedSource<R>, ReadFault>
        ensures begins { IfOk result (λ peeked. Begins (take peeked.count peeked.first)
            (R.unread source) (R.unread peeked.source)) }
        ensures given { IfOk result (λ peeked. peeked.given ≡ 0) }
        ensures failures { IfOk result
            (λ peeked. R.failures peeked.source ≡ R.failures source) }
        ensures only { IfErr result (λ f. f ≡ Read) }
    {
        let mut source = source;
        let mut first = [0; 4];
        let count = fill(&mut source, &mut first)?;
        Ok(PeekedSource {
            first,
            count,
            given: 0,
            source,
        })
    }
}

impl<R: Source> Source for PeekedSource<R> {
    ghost use Rattle.std.specs.Prelude.{take, drop, nat_le, [], if◌then◌else◌};
    ghost use Rattle.std.specs.Io.KnownBytes.{prepend_known};

    ghost failures = { λ s. R.failures s.source };

    ghost unread = { λ s. prepend_known (drop s.given (take s.count s.first))
        (R.unread s.source) };

    ghost buffered = { λ s. if nat_le s.count s.given then R.buffered s.source else [] };

    fn read(&mut self, buffer: &mut [u8]) -> Result<usize, DeviceFault> {
        let first = self.first();
        let (_, front) = first.split_at(self.given.min(first.len()));
        if front.is_empty() {
            return self.source.read(buffer);
        }
        let count = front.len().min(buffer.len());
        buffer[..count].copy_from_slice(&front[..count]);
        self.given += count;
        Ok(count)
    }

    #[inline(always)]
    fn buffer(&self) -> &[u8] {
        if self.count <= self.given {
            self.source.buffer()
        } else {
            &[]
        }
    }

    #[inline(always)]
    fn consume(&mut self, count: usize) {
        if self.count <= self.given {
            self.source.consume(count);
        }
    }
}
