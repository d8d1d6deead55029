//! `datagrams_of`: reads a datagram file, and keeps its datagrams in a list.
ghost use Rattle.std.specs.Prelude.{◌≡◌, IfOk, IfSome};
ghost use Rattle.flute_journal.specs.Records.{IsFileWithin};

use flute_journal::{Datagrams, EachFault, for_each_datagram};
use flute_parts::Source;
use flute_wire::{Datagram, DatagramFault};
use std::alloc::Global;

/// Datagrams that are kept, one after another.
#[derive(Drop)]
struct Kept {
    alloc: Global,
    datagrams: Vec<Datagram>,
}

impl Datagrams for Kept {
    ghost use Rattle.std.specs.Prelude.{◌≡◌, ◌++◌, ⊤};
    ghost use Rattle.std.proofs.Common.{ap, append-nil, append_assoc, sym, ◌∙◌};

    type Fault = DatagramFault;

    // What the trait asks an implementor to say: taking these datagrams from state s to state t
    // means that they are appended to the list.
    ghost takes = { λ s datagrams t. t.datagrams.items ≡ s.datagrams.items ++ datagrams };

    // Nothing is promised of the state after a failure.
    ghost fails = { λ s t. ⊤ };

    fn datagram(&mut self, datagram: &[u8]) -> Result<(), DatagramFault> {
        let copy = Datagram::new(self.alloc, datagram)?;
        match self.datagrams.push(copy) {
            Ok(()) => Ok(()),
            Err(_) => Err(DatagramFault::OutOfMemory),
        }
    }

    // The laws that the trait asks for: taking none changes nothing, takings may follow one
    // another, and a failure may come after any of them.
    ghost none = { λ s. sym (append-nil s.datagrams.items) };

    ghost more = { λ s t u first next a b. b
        ∙ (ap (λ ds. ds ++ next) a ∙ append_assoc s.datagrams.items first next) };

    ghost later = { λ s t u first a b. tt };
}

/// The datagrams of the file that the source holds, at most `max_records`, in their order.
///
/// # Errors
///
/// `Read` with the fault of the file, and `Datagram` if there was no memory.
pub fn datagrams_of<R: Source>(
    alloc: Global,
    source: &mut R,
    max_records: u64,
) -> Result<Vec<Datagram>, EachFault<DatagramFault>>
    ensures read { IfOk result (λ kept. IfSome (R.unread source.old)
        (λ bytes. IsFileWithin max_records bytes kept.items)) }
{
    let mut kept = Kept {
        alloc,
        datagrams: Vec::new(alloc),
    };
    for_each_datagram(alloc, source, max_records, &mut kept)?;
    Ok(kept.datagrams)
}
