//! A walk over the objects of facts that come in the order of their addresses.
ghost use Rattle.std.specs.Prelude.{◌≡◌, ◌+◌, ◌∷◌, ◌++◌, [], List, Option, Some, None, IfOk, OnOk};
ghost use Rattle.std.specs.Prelude.{if◌then◌else◌, is_ok};
ghost use Rattle.flute_parts.specs.declared.fact.Fact.{Fact as Known};
ghost use Rattle.flute_parts.specs.declared.fact.Fact.TheVariants.{Info as InfoFact};
ghost use Rattle.flute_parts.specs.declared.key.Key.{Key as Name};
ghost use Rattle.flute_parts.specs.Addresses.{address, fact_of};
ghost use Rattle.flute_parts.specs.Facts.{IsRising};
ghost use Rattle.flute_store.specs.Scan.{Scanned, next_fact, CanFollow};
ghost use Rattle.flute_store.specs.Scans.{Scans};
ghost use Rattle.flute_store.specs.Held.{HoldsObject};
ghost use Rattle.flutejoin.specs.Listing.{IsFirstOf};
ghost use Rattle.flutejoin.specs.Progress.{IsBroken, PassesOn, Progress, progress_of};
ghost use Rattle.flutejoin.specs.Progress.{value_in, with_value};
ghost use Rattle.flutejoin.specs.Told.{Told, conflict_in};
ghost use Rattle.flutejoin.specs.Walk.{CanAdd, HasAll, IsAt, StateIs, Stands, TellsAll};
ghost use Rattle.flutejoin.specs.Walk.{conflicts_in};

use crate::walk::visitor::Visitor;
use flute_parts::{DeviceFault, FactRef, Info, Key, SymbolId};
use flute_store::{ObjectScan, Status, Turn};

/// A walk over objects: their facts come one by one in the order of their addresses, and none of
/// them is kept.
#[derive(Drop)]
pub struct ObjectWalk {
    /// The object of the last fact.
    pub open: Option<OpenObject>,
}

/// An object of which more facts may come.
#[derive(Drop)]
pub struct OpenObject {
    pub key: Key,
    pub state: ObjectState,
    /// How many of its symbols are in conflict.
    pub conflicts: u64,
}

/// What is known of an object's information, which comes before its symbols.
#[derive(Drop)]
pub enum ObjectState {
    NoInformation,
    ConflictingInformation,
    OneInformation(ObjectScan),
}

impl ObjectWalk {
    /// A walk over no object.
    pub fn new() -> ObjectWalk
        ensures { result.open ≡ None }
    {
        ObjectWalk { open: None }
    }

    /// Takes the next fact, which is after those that came before.
    ///
    /// # Errors
    ///
    /// That of the visitor.
    #[inline(always)]
    pub fn add<V: Visitor>(
        &mut self,
        fact: &FactRef<'_>,
        visitor: &mut V,
    ) -> Result<(), DeviceFault>
        requires { CanAdd V.Has (fact_of fact.now) self.old.open visitor.old }
        ensures added { (at : V.At) (F : List Known) → IsRising (F ++ fact_of fact.now ∷ [])
            → Stands V.Has at F self.old.open visitor.old
            → OnOk result
            (Stands V.Has at (F ++ fact_of fact.now ∷ []) self.new.open visitor.new) }
        ensures kept { V.kept visitor.new ≡ V.kept visitor.old }
        ensures failures { V.fails visitor.new
            ≡ V.fails visitor.old + (if is_ok result then 0 else 1) }
    {
        match fact {
            FactRef::Symbol { key, id, bytes } => {
                self.add_symbol(key, *id, Some(*bytes), visitor)
            }
            FactRef::SymbolConflict { key, id } => self.add_symbol(key, *id, None, visitor),
            FactRef::Info { key, info } => self.begin_known(key, info, visitor),
            FactRef::InfoConflict { key } => {
                self.begin(*key, ObjectState::ConflictingInformation, 0, visitor)
            }
        }
    }

    // Takes a symbol with its one value, or None if it has two.
    #[inline(always)]
    fn add_symbol<V: Visitor>(
        &mut self,
        key: &Key,
        id: SymbolId,
        value: Option<&[u8]>,
        visitor: &mut V,
    ) -> Result<(), DeviceFault>
        requires { CanAdd V.Has (next_fact key.now (id, value)) self.old.open visitor.old }
        ensures added { (at : V.At) (F : List Known)
            → IsRising (F ++ next_fact key.now (id, value.entry) ∷ [])
            → Stands V.Has at F self.old.open visitor.old
            → OnOk result (Stands V.Has at (F ++ next_fact key.now (id, value.entry) ∷ [])
            self.new.open visitor.new) }
        ensures kept { V.kept visitor.new ≡ V.kept visitor.old }
        ensures failures { V.fails visitor.new
            ≡ V.fails visitor.old + (if is_ok result then 0 else 1) }
    {
        match &mut self.open {
            Some(object) if object.key == *key => {
                object.conflicts += conflicts_by(value);
                match &mut object.state {
                    ObjectState::OneInformation(scan) => pass(scan, Some((id, value)), visitor),
                    ObjectState::NoInformation | ObjectState::ConflictingInformation => Ok(()),
                }
            }
            _ => self.begin(
                *key,
                ObjectState::NoInformation,
                conflicts_by(value),
                visitor,
            ),
        }
    }

    // Opens the next object, of which its one information came.
    #[inline(never)]
    fn begin_known<V: Visitor>(
        &mut self,
        key: &Key,
        info: &Info,
        visitor: &mut V,
    ) -> Result<(), DeviceFault>
        requires { IsAt V.Has self.old.open visitor.old }
        ensures begun { (at : V.At) (F : List Known)
            → IsRising (F ++ InfoFact key.now info.now ∷ [])
            → Stands V.Has at F self.old.open visitor.old
            → OnOk result (Stands V.Has at (F ++ InfoFact key.now info.now ∷ []) self.new.open
            visitor.new) }
        ensures kept { V.kept visitor.new ≡ V.kept visitor.old }
        ensures failures { V.fails visitor.new
            ≡ V.fails visitor.old + (if is_ok result then 0 else 1) }
    {
        self.close(visitor)?;
        visitor.begins(key, info)?;
        self.open = Some(OpenObject {
            key: *key,
            state: ObjectState::OneInformation(ObjectScan::new(*key, info)),
            conflicts: 0,
        });
        Ok(())
    }

    // Opens the next object, of which one fact came, which is not its one information.
    #[inline(never)]
    fn begin<V: Visitor>(
        &mut self,
        key: Key,
        state: ObjectState,
        conflicts: u64,
        visitor: &mut V,
    ) -> Result<(), DeviceFault>
        requires { IsAt V.Has self.old.open visitor.old }
        ensures begun { (at : V.At) (F : List Known) (f : Known) → IsRising (F ++ f ∷ [])
            → Stands V.Has at F self.old.open visitor.old → IsFirstOf F key
            → (address f).key ≡ key → StateIs key (f ∷ []) None state
            → conflicts ≡ conflict_in key f
            → OnOk result (Stands V.Has at (F ++ f ∷ []) self.new.open visitor.new) }
        ensures kept { V.kept visitor.new ≡ V.kept visitor.old }
        ensures failures { V.fails visitor.new
            ≡ V.fails visitor.old + (if is_ok result then 0 else 1) }
    {
        self.close(visitor)?;
        self.open = Some(OpenObject {
            key,
            state,
            conflicts,
        });
        Ok(())
    }

    /// Ends the open object, if there is one.
    ///
    /// # Errors
    ///
    /// That of the visitor.
    pub fn close<V: Visitor>(&mut self, visitor: &mut V) -> Result<(), DeviceFault>
        requires { IsAt V.Has self.old.open visitor.old }
        ensures closed { (at : V.At) (F : List Known) → IsRising F
            → Stands V.Has at F self.old.open visitor.old
            → OnOk result (HasAll V.Has at F visitor.new) }
        ensures kept { V.kept visitor.new ≡ V.kept visitor.old }
        ensures failures { V.fails visitor.new
            ≡ V.fails visitor.old + (if is_ok result then 0 else 1) }
    {
        let Some(object) = self.open.take() else {
            return Ok(());
        };
        let status = end_object(object.state, visitor)?;
        visitor.ends(&object.key, status, object.conflicts)
    }
}

// How many conflicts the symbol is that has this one value, or None if it has two.
#[inline(always)]
fn conflicts_by(value: Option<&[u8]>) -> u64
    ensures { result ≡ conflicts_in value.entry }
{
    match value {
        Some(_) => 0,
        None => 1,
    }
}

// How much is held of an object of which all facts came.
fn end_object<V: Visitor>(state: ObjectState, visitor: &mut V) -> Result<Status, DeviceFault>
    requires { (key : Name) × (mine : List Known) × (progress : Option Progress)
        × StateIs key mine progress state }
    ensures told { (at : V.At) (F before mine : List Known) (key : Name) (objects : List Told)
        (progress : Option Progress) → F ≡ before ++ mine → IsRising F → HoldsObject F key
        → IsFirstOf before key → StateIs key mine progress state
        → V.Has at objects progress visitor.old
        → IfOk result (λ status. (all : Option Progress) × TellsAll F key status all
        × V.Has at objects all visitor.new) }
    ensures kept { V.kept visitor.new ≡ V.kept visitor.old }
    ensures failures { V.fails visitor.new
        ≡ V.fails visitor.old + (if is_ok result then 0 else 1) }
{
    match state {
        ObjectState::NoInformation => Ok(Status::NoInformation),
        ObjectState::ConflictingInformation => Ok(Status::ConflictingInformation),
        ObjectState::OneInformation(mut scan) => {
            pass(&mut scan, None, visitor)?;
            Ok(scan.status())
        }
    }
}

// Passes the next symbol, or the end if none is left, and tells of it and of the gaps before.
#[inline(always)]
fn pass<V: Visitor>(
    scan: &mut ObjectScan,
    next: Option<(SymbolId, Option<&[u8]>)>,
    visitor: &mut V,
) -> Result<(), DeviceFault>
    requires { (s : Scanned) × Scans scan.old s × CanFollow s next × (s.coming ≡ None)
        × (s.bytes ≡ None → IsBroken s.key s.facts) }
    ensures passed { (at : V.At) (s : Scanned) (objects : List Told) → Scans scan.old s
        → CanFollow s next.entry → s.coming ≡ None
        → (s.bytes ≡ None → IsBroken s.key s.facts)
        → V.Has at objects (Some (progress_of s)) visitor.old
        → OnOk result ((u : Scanned) × PassesOn s next.entry u × Scans scan.new u
        × V.Has at objects (Some (progress_of u)) visitor.new) }
    ensures kept { V.kept visitor.new ≡ V.kept visitor.old }
    ensures failures { V.fails visitor.new
        ≡ V.fails visitor.old + (if is_ok result then 0 else 1) }
{
    loop {
        match scan.next(next) {
            Turn::Gap(gap) => visitor.gap(&gap)?,
            Turn::Fitting => {
                return match next {
                    Some((_, value)) => tell_value(value, visitor),
                    None => Ok(()),
                };
            }
            Turn::Wanted => return visitor.lacks(),
            Turn::Passed | Turn::End => return Ok(()),
        }
    }
}

// Tells a value, if there is one.
#[inline(always)]
fn tell_value<V: Visitor>(value: Option<&[u8]>, visitor: &mut V) -> Result<(), DeviceFault>
    ensures told { (at : V.At) (objects : List Told) (p : Progress)
        → V.Has at objects (Some p) visitor.old
        → OnOk result (V.Has at objects (Some (with_value (value_in value.entry) p)) visitor.new) }
    ensures kept { V.kept visitor.new ≡ V.kept visitor.old }
    ensures failures { V.fails visitor.new
        ≡ V.fails visitor.old + (if is_ok result then 0 else 1) }
{
    match value {
        Some(value) => visitor.fits(value),
        None => Ok(()),
    }
}
