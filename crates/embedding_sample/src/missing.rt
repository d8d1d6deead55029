//! Who is missing what: how two stores differ, object by object.
ghost use Rattle.std.specs.Prelude.{◌≡◌, ◌++◌, OnOk, IfOk, List};
ghost use Rattle.flute_streams.specs.Compared.{AreRows};

use flute_parts::DeviceFault;
use flute_store::Shelf;
use flute_streams::{Row, Rows, StreamsFault, WalkStream, compare_to};
use std::alloc::Global;

/// Rows that are kept, one after another.
#[derive(Drop)]
struct Kept {
    rows: Vec<Row>,
}

impl Rows for Kept {
    ghost use Rattle.std.specs.Prelude.{◌≡◌, ◌++◌, ⊤};
    ghost use Rattle.std.proofs.Common.{ap, append-nil, append_assoc, sym, ◌∙◌};

    ghost takes = { λ s rows t. t.rows.items ≡ s.rows.items ++ rows };

    ghost fails = { λ s t. ⊤ };

    fn row(&mut self, row: Row) -> Result<(), DeviceFault> {
        match self.rows.push(row) {
            Ok(()) => Ok(()),
            Err(_) => Err(DeviceFault),
        }
    }

    ghost none = { λ s. sym (append-nil s.rows.items) };

    ghost more = { λ s t u first next a b.
        b ∙ (ap (λ rows. rows ++ next) a ∙ append_assoc s.rows.items first next) };

    ghost later = { λ s t u first a b. tt };
}

/// Of each object that one of two stores has, in order: how many symbols both have, the same or
/// not, how many only the first or only the second has, and which has its transmission information.
///
/// # Errors
///
/// `Write` if there was no memory.
pub fn differences(alloc: Global, first: &Shelf, second: &Shelf) -> Result<Vec<Row>, StreamsFault>
    ensures rows { IfOk result (λ rows. AreRows first.now second.now rows.items) }
{
    let mut kept = Kept {
        rows: Vec::new(alloc),
    };
    let mut left = WalkStream::new(first.walk());
    let mut right = WalkStream::new(second.walk());
    compare_to(alloc, &mut left, &mut right, &mut kept)?;
    Ok(kept.rows)
}
