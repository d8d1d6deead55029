//! A whole file or nothing: the bytes of an object of a store.
ghost use Rattle.std.specs.Prelude.{◌≡◌, ◌≢◌, Some, IfOk, IfErr};
ghost use Rattle.flute_parts.specs.Information.{Information};
ghost use Rattle.flute_store.specs.Objects.{Whole, object};
ghost use Rattle.flute_store.specs.declared.extract.ExtractFault.TheVariants.{Write};

use flute_parts::{Key, MemorySink, Sink};
use flute_store::laws::gaps_are_maximal_runs;
use flute_store::{ExtractFault, Shelf};
use std::alloc::Global;

/// The bytes of an object, if it is whole: all of them and no others.
///
/// # Errors
///
/// `Write` if there was no memory; any other fault only of an object that is not whole.
pub fn file_of(alloc: Global, store: &Shelf, key: &Key) -> Result<MemorySink, ExtractFault>
    ensures whole { IfOk result (λ file. (info : Information) × Whole store.now key.now info
        × (⟦<MemorySink as Sink>⟧.written file ≡ Some (object store.now key.now info))) }
    ensures nothing { IfErr result (λ fault. fault ≢ Write
        → (info : Information) → ¬ Whole store.now key.now info) }
{
    // By this the proof knows that an object is whole exactly if it has no gap.
    gaps_are_maximal_runs();
    let mut file = MemorySink::new(alloc);
    store.extract(key, &mut file)?;
    Ok(file)
}
