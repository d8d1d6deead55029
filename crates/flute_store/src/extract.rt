//! `Store::extract`: whole objects, written symbol after symbol.
ghost use Rattle.std.specs.Prelude.{◌≡◌, ◌+◌, [], take, if◌then◌else◌, is_ok};
ghost use Rattle.flute_parts.specs.Devices.{Writes};
ghost use Rattle.flute_store.specs.PartitionScan.{all_left};
ghost use Rattle.flute_store.specs.HeldScan.{walk_in, IsHeldScan};
ghost use Rattle.flute_store.specs.BytesLeft.{bytes_left, GivesBytes};
ghost use Rattle.flute_store.specs.Extract.{Extracts, failed};

use crate::gaps::Gaps;
use crate::held_scan::HeldScan;
use crate::store::Store;
use crate::turn::Turn;
use flute_join::Cell;
use flute_parts::{DeviceFault, Key, Sink, SymbolId};
use thiserror::Error;

/// Why an object is not written. The first that applies is returned.
#[derive(Clone, Copy, Debug, Error)]
pub enum ExtractFault {
    /// Nothing of the object is held.
    #[error("no object")]
    NoObject,
    /// Symbols of the object are held, and no transmission information.
    #[error("no information")]
    NoInformation,
    /// Two values of the transmission information came.
    #[error("conflicting information")]
    ConflictingInformation,
    /// Some symbol of the partition is not held as one fitting value.
    #[error("not whole")]
    NotWhole {
        /// The first such symbol.
        first: SymbolId,
    },
    /// The sink failed.
    #[error("write")]
    Write,
}

impl<'a> HeldScan<'a> {
    // The bytes of the next symbol, which is passed. No symbol that is left is wanted.
    fn next_bytes(&mut self) -> Option<&'a [u8]>
        requires walk { IsHeldScan self.old }
        requires whole { all_left (walk_in self.old) ≡ [] }
        ensures { GivesBytes self.old result self.new }
    {
        loop {
            let first = self.held.first();
            match self.turn() {
                Some(Turn::Fitting) => {
                    let Some((_, held)) = first else {
                        return None;
                    };
                    return held.value();
                }
                Some(Turn::Passed) => {}
                None => {}
                Some(Turn::Wanted) => return None,
                Some(Turn::Gap(_)) => return None,
                Some(Turn::End) => return None,
            }
        }
    }

    // Writes the symbols that are left one after another, up to `len` bytes.
    // None of them is wanted.
    fn write<W: Sink>(&mut self, sink: &mut W, len: u64) -> Result<(), DeviceFault>
        requires walk { IsHeldScan self.old }
        requires whole { all_left (walk_in self.old) ≡ [] }
        ensures bytes { Writes (W.written sink.old) (W.written sink.new)
            (take len (bytes_left (walk_in self.old))) result }
        ensures failures { W.failures sink.new
            ≡ W.failures sink.old + (if is_ok result then 0 else 1) }
    {
        let mut rest = len;
        while let Some(bytes) = self.next_bytes() {
            let bytes = &bytes[..rest.min(bytes.len() as u64) as usize];
            sink.write_all(bytes)?;
            rest -= bytes.len() as u64;
        }
        Ok(())
    }
}

impl<const SESSIONS: u32, const OBJECTS: u32, const SYMBOLS: u32> Store<
    SESSIONS,
    OBJECTS,
    SYMBOLS,
> {
    /// Writes an object that is whole, and returns its length in bytes: its symbols in the order of
    /// the partition, without the padding of the last one (RFC 5052, section 9.1).
    ///
    /// `NoObject` if nothing of the object is held, `NoInformation` if no transmission information
    /// of it is, `ConflictingInformation` if two values of it came, and `NotWhole` if some symbol
    /// of the partition is not held as one fitting value: after these nothing was written. `Write`
    /// if the sink failed: it then took a proper prefix of the object.
    ///
    /// It writes each symbol from where it lies in the store. It takes no memory of its own, and
    /// time by the number of blocks and of held symbols.
    pub fn extract<W: Sink>(&self, key: &Key, sink: &mut W) -> Result<u64, ExtractFault>
        ensures bytes { Extracts W.written self.now key.now sink.old sink.new result }
        ensures failures { W.failures sink.new ≡ W.failures sink.old + failed result }
    {
        let Some(object) = self.object(key) else {
            return Err(ExtractFault::NoObject);
        };
        let info = match &object.info {
            Cell::Absent => return Err(ExtractFault::NoInformation),
            Cell::Conflict => return Err(ExtractFault::ConflictingInformation),
            Cell::One(info) => info,
        };
        let mut gaps = Gaps::new(info, object.symbols.iter());
        if let Some(gap) = gaps.next() {
            return Err(ExtractFault::NotWhole {
                first: SymbolId {
                    sbn: gap.sbn,
                    esi: gap.first,
                },
            });
        }
        let length = info.length();
        let mut walk = HeldScan::new(info, object.symbols.iter());
        match walk.write(sink, length) {
            Ok(()) => Ok(length),
            Err(_) => Err(ExtractFault::Write),
        }
    }
}
