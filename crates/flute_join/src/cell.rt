//! A cell: nothing, one value, or a conflict.
ghost use Rattle.std.specs.Prelude.{◌≡◌, IfErr, IsOk, OnOk, OnErr, IsNone, IsTrue, ◌↔◌};
ghost use Rattle.std.specs.Option.{option_copied};
ghost use Rattle.flute_join.specs.Semilattice.{IsBelow};
ghost use Rattle.flute_join.specs.Cell.{cell_join, one_value, cell_join_laws, IsKnown};
ghost use Rattle.flute_join.specs.Cell.{CellNeedsMemory};

use crate::join::Join;
use crate::refusal::JoinRefusal;
use crate::value::Value;
use std::alloc::Global;

/// What is known at one place. A conflict stays one, whatever comes after it.
#[derive(Drop, PartialEq, Eq)]
pub enum Cell<T: Value> {
    /// No value came.
    Absent,
    /// One value came, perhaps several times.
    One(T),
    /// Different values came.
    Conflict,
}

impl<T: Value> Cell<T> {
    /// Takes a value in: an absent cell holds it from now on, a cell that holds another one becomes
    /// a conflict, and any other cell stays as it is. Takes no memory.
    pub fn put(&mut self, value: T)
        ensures { self.new ≡ cell_join T.eq self.old (Cell.One value) }
    {
        let conflicts = match self {
            Cell::Absent => {
                *self = Cell::One(value);
                return;
            }
            Cell::One(held) => *held != value,
            Cell::Conflict => return,
        };
        if conflicts {
            *self = Cell::Conflict;
        }
    }

    /// Whether different values came. Takes no memory.
    pub fn is_conflict(&self) -> bool
        ensures { IsTrue result ↔ (self.now ≡ Cell.Conflict) }
    {
        matches!(self, Cell::Conflict)
    }

    /// The value, if the cell holds one; `None` if it is absent or a conflict. Takes no memory.
    pub fn one(&self) -> Option<&T>
        ensures { option_copied result ≡ one_value self.now }
    {
        match self {
            Cell::One(value) => Some(value),
            _ => None,
        }
    }
}

impl<T: Value> Join for Cell<T> {
    ghost joined = { cell_join T.eq };

    // No limit forbids the join of two cells.
    ghost over = { λ _ _. ⊥ };

    ghost needs_memory = { CellNeedsMemory };

    ghost sound = { IsKnown };

    ghost join_laws = { cell_join_laws T.Eq.laws T.same_where_equal };

    /// Joins another cell into this one. It is never `Full`, and takes memory only if this cell
    /// is absent and the other holds one value; refused, it leaves this cell as it was.
    fn join_from(&mut self, alloc: Global, other: &Cell<T>) -> Result<(), JoinRefusal>
        ensures ok { OnOk result (self.new ≡ cell_join T.eq self.old other.now) }
        ensures err { OnErr result (self.new ≡ self.old) }
        ensures succeeds { (self.old ≡ Cell.Absent → IsNone (one_value other.now)) → IsOk result }

        // As for each join:
        ensures above_old { IsBelow (cell_join T.eq) self.old self.new }
        ensures below_join { IsBelow (cell_join T.eq) self.new (cell_join T.eq self.old other.now) }
        ensures stays_sound { IsKnown self.old → IsKnown other.now → IsKnown self.new }
        ensures within { OnOk result (¬ ⊥) }
        ensures full { IfErr result (λ why. why ≡ JoinRefusal.Full → ⊥) }
        ensures memory { IfErr result (λ why. why ≡ JoinRefusal.OutOfMemory
            → CellNeedsMemory self.old other.now) }
    {
        match other {
            Cell::Absent => {}
            Cell::One(value) => match self {
                Cell::Absent => *self = Cell::One(value.copy(alloc)?),
                Cell::One(held) if *held == *value => {}
                _ => *self = Cell::Conflict,
            },
            Cell::Conflict => *self = Cell::Conflict,
        }
        Ok(())
    }

    fn copy(&self, alloc: Global) -> Result<Cell<T>, JoinRefusal> {
        match self {
            Cell::Absent => Ok(Cell::Absent),
            Cell::One(value) => Ok(Cell::One(value.copy(alloc)?)),
            Cell::Conflict => Ok(Cell::Conflict),
        }
    }
}
