//! An object that is written as what is known of it passes, in the order of a journal.
ghost use Rattle.std.specs.Prelude.{◌≡◌, ◌+◌, ℕ, false, List, []};
ghost use Rattle.std.specs.Prelude.{◌∷◌, ◌++◌, Option, IfErr};
ghost use Rattle.flute_parts.specs.Addresses.{address, fact_of};
ghost use Rattle.flute_parts.specs.Facts.{IsRising};
ghost use Rattle.flute_parts.specs.declared.fact.Fact.{Fact as Known};
ghost use Rattle.flute_parts.specs.declared.key.Key.{Key as Name};
ghost use Rattle.flute_parts.specs.Devices.{times_failed};
ghost use Rattle.flute_store.specs.Scan.{next_fact};
ghost use Rattle.flutejoin.specs.Extract.{Extracts};
ghost use Rattle.flutejoin.specs.ObjectWriters.{WritesNothing, Stands, Scanning, ScansOn};
ghost use Rattle.flutejoin.specs.ObjectWriters.{TellsUntouched, FailedBy, information_fact};

use crate::command_fault::CommandFault;
use flute_parts::{FactRef, Info, Key, Sink, SymbolId};
use flute_store::{ObjectScan, Turn};

/// Writes the symbols of an object as the facts of a journal pass, for as long as it may be whole.
#[derive(Drop)]
pub struct ObjectWriter {
    key: Key,
    found: Found,
    /// Whether the sink has failed. Nothing is written any more then.
    failed: bool,
}

/// What was found of the object in the facts so far.
#[derive(Drop)]
enum Found {
    /// Nothing.
    Nothing,
    /// Symbols, and no information.
    Symbols,
    /// Two values of its information.
    Conflict,
    /// This symbol is the first of its partition that is not held as one fitting value.
    NotWhole(SymbolId),
    /// Each symbol of its partition so far is held as one fitting value.
    Whole(WholeSoFar),
}

/// An object, as far as it is whole and was written.
#[derive(Drop)]
struct WholeSoFar {
    scan: ObjectScan,
    /// How many bytes it has.
    size: u64,
    /// How many of them are not written.
    left: u64,
}

impl ObjectWriter {
    /// A writer of the object with this key, of which nothing was found.
    pub fn new(key: Key) -> ObjectWriter
        ensures none { (start : Option (List ℕ)) → Stands [] result start start }
        ensures key { result.key ≡ key }
        ensures untouched { WritesNothing result.found }
        ensures good { result.failed ≡ false }
    {
        ObjectWriter {
            key,
            found: Found::Nothing,
            failed: false,
        }
    }

    /// Takes the next fact, and writes the symbol of the object that it contains.
    #[inline(always)]
    pub fn pass<W: Sink>(&mut self, fact: &FactRef<'_>, sink: &mut W)
        ensures passed { (P : List Known) (start : Option (List ℕ))
            → IsRising (P ++ fact_of fact.now ∷ [])
            → Stands P self.old start (W.written sink.old)
            → Stands (P ++ fact_of fact.now ∷ []) self.new start (W.written sink.new) }
        ensures key { self.new.key ≡ self.old.key }
        ensures untouched { WritesNothing self.new.found
            → WritesNothing self.old.found × (sink.new ≡ sink.old) }
        ensures failures { W.failures sink.new + times_failed self.old.failed
            ≡ W.failures sink.old + times_failed self.new.failed }
    {
        if fact.address().key == self.key {
            match fact {
                FactRef::Info { info, .. } => self.information(Some(*info)),
                FactRef::InfoConflict { .. } => self.information(None),
                FactRef::Symbol { id, bytes, .. } => self.symbol(*id, Some(*bytes), sink),
                FactRef::SymbolConflict { id, .. } => self.symbol(*id, None, sink),
            }
        }
    }

    // Takes its information, or None if that has two values.
    #[inline(never)]
    fn information(&mut self, info: Option<Info>)
        ensures passed { (P : List Known) (start now : Option (List ℕ))
            → IsRising (P ++ information_fact self.old.key info ∷ [])
            → Stands P self.old start now
            → Stands (P ++ information_fact self.old.key info ∷ []) self.new start now }
        ensures key { self.new.key ≡ self.old.key }
        ensures untouched { WritesNothing self.new.found → WritesNothing self.old.found }
        ensures failed { self.new.failed ≡ self.old.failed }
    {
        if let Found::Nothing = self.found {
            self.found = match info {
                Some(info) => Found::Whole(WholeSoFar {
                    scan: ObjectScan::new(self.key, &info),
                    size: info.length(),
                    left: info.length(),
                }),
                None => Found::Conflict,
            };
        }
    }

    // Takes its next symbol, with its one value, or None if it has two.
    #[inline(always)]
    fn symbol<W: Sink>(&mut self, id: SymbolId, value: Option<&[u8]>, sink: &mut W)
        ensures passed { (P : List Known) (start : Option (List ℕ))
            → IsRising (P ++ next_fact self.old.key (id, value.entry) ∷ [])
            → Stands P self.old start (W.written sink.old)
            → Stands (P ++ next_fact self.old.key (id, value.entry) ∷ []) self.new start
            (W.written sink.new) }
        ensures key { self.new.key ≡ self.old.key }
        ensures untouched { WritesNothing self.new.found
            → WritesNothing self.old.found × (sink.new ≡ sink.old) }
        ensures failures { W.failures sink.new + times_failed self.old.failed
            ≡ W.failures sink.old + times_failed self.new.failed }
    {
        match &mut self.found {
            Found::Whole(object) => {
                if let Some(first) = object.symbol(id, value, &mut self.failed, sink) {
                    self.found = Found::NotWhole(first);
                }
            }
            Found::Nothing => self.found = Found::Symbols,
            _ => {}
        }
    }

    /// Returns how many bytes the object has, once all facts came, if it is whole and written.
    ///
    /// # Errors
    ///
    /// `NoObject`, `NoInformation`, `ConflictingInformation` or `NotWhole`, as said of the command;
    /// else `CannotWrite` if the sink has failed.
    pub fn end(&mut self) -> Result<u64, CommandFault>
        ensures extracts { (P : List Known) (start now : Option (List ℕ)) → IsRising P
            → Stands P self.old start now → Extracts (λ x. x) P self.old.key start now result }
        ensures untouched { IfErr result (TellsUntouched self.old.found) }
        ensures failed { FailedBy self.old.failed result }
    {
        let first = match &mut self.found {
            Found::Nothing => return Err(CommandFault::NoObject),
            Found::Symbols => return Err(CommandFault::NoInformation),
            Found::Conflict => return Err(CommandFault::ConflictingInformation),
            Found::NotWhole(first) => *first,
            Found::Whole(object) => match object.scan.next(None) {
                Turn::Gap(gap) => SymbolId {
                    sbn: gap.sbn,
                    esi: gap.first,
                },
                _ if self.failed => return Err(CommandFault::CannotWrite),
                _ => return Ok(object.size),
            },
        };
        Err(CommandFault::NotWhole {
            sbn: first.sbn,
            esi: first.esi,
        })
    }
}

impl WholeSoFar {
    // Takes the next symbol. If it is the next of the partition, it is written, as far as it is of
    // the object, unless the sink has failed. The first symbol that is not held as one fitting
    // value, if that is known now.
    #[inline(always)]
    fn symbol<W: Sink>(
        &mut self,
        id: SymbolId,
        value: Option<&[u8]>,
        failed: &mut bool,
        sink: &mut W,
    ) -> Option<SymbolId>
        ensures passed { (P : List Known) (key : Name) (start : Option (List ℕ))
            → IsRising (P ++ next_fact key (id, value.entry) ∷ [])
            → Scanning P key failed.old start (W.written sink.old) self.old
            → ScansOn (P ++ next_fact key (id, value.entry) ∷ []) key failed.new start
            (W.written sink.new) self.new result }
        ensures failures { W.failures sink.new + times_failed failed.old
            ≡ W.failures sink.old + times_failed failed.new }
    {
        match self.scan.next(Some((id, value))) {
            Turn::Fitting => {
                if let Some(bytes) = value {
                    let first = &bytes[..self.left.min(bytes.len() as u64) as usize];
                    self.left -= first.len() as u64;
                    if !*failed {
                        *failed = sink.write_all(first).is_err();
                    }
                }
                None
            }
            Turn::Passed => None,
            Turn::Gap(gap) => Some(SymbolId {
                sbn: gap.sbn,
                esi: gap.first,
            }),
            Turn::Wanted | Turn::End => Some(id),
        }
    }
}
