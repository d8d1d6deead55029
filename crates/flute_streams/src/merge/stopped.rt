//! The first of several streams that has a fault, once their merge has stopped at one.
ghost use Rattle.std.specs.Prelude.{◌≡◌, ◌≢◌, ◌<◌, ℕ, Some, List, length, OnOk, IfErr, slice_get};
ghost use Rattle.flute_parts.specs.declared.fact.Fact.{Fact};
ghost use Rattle.flute_streams.specs.Streams.{Gave};
ghost use Rattle.flute_streams.specs.StreamMerges.{GaveBefore};
ghost use Rattle.flute_streams.specs.FirstFaults.{HasStopped, TellBefore, IsStopOf};

use crate::merge::streams_fault::InputFault;
use crate::streams::Streams;
use flute_journal::LoadFault;
use std::alloc::Global;

/// Of several streams whose merge has stopped at the fault `stopped`, the fault of the first stream
/// that has one, in the order of their numbers. To find it, each stream before the one of `stopped`
/// is read to its end, until one of them has a fault.
pub fn first_fault<G: Streams>(alloc: Global, streams: &mut G, stopped: InputFault) -> InputFault
    requires { stopped.number < length (G.streams streams.old) }
    ensures stopped { (start : List G.Stream)
        → GaveBefore G.behaviour stopped.number start (G.streams streams.old)
        → HasStopped G.behaviour start (G.streams streams.old) stopped
        → HasStopped G.behaviour start (G.streams streams.new) result }
    ensures first { (start : List G.Stream)
        → GaveBefore G.behaviour stopped.number start (G.streams streams.old)
        → TellBefore G.behaviour result.number start }
    ensures as_many { length (G.streams streams.new) ≡ length (G.streams streams.old) }
    ensures names { G.names streams.new ≡ G.names streams.old }
{
    for number in 0..stopped.number {
        if let Err(fault) = finish(alloc, streams, number) {
            return InputFault { number, fault };
        }
    }
    stopped
}

// Reads the stream with this number to its end.
#[tactic(auto, using(crate::proofs::merge_lemmas::Finished::reads_on))]
fn finish<G: Streams>(alloc: Global, streams: &mut G, number: usize) -> Result<(), LoadFault>
    requires { number < length (G.streams streams.old) }
    ensures as_many { length (G.streams streams.new) ≡ length (G.streams streams.old) }
    ensures others { (k : ℕ) → k ≢ number
        → slice_get (G.streams streams.new) k ≡ slice_get (G.streams streams.old) k }
    ensures told { OnOk result ((start s : G.Stream) (F : List Fact)
        → slice_get (G.streams streams.old) number ≡ Some s
        → Gave G.behaviour start s F
        → (told : List Fact) × G.behaviour.tells start told) }
    ensures stops { IfErr result (λ fault. (start s : G.Stream) (F : List Fact)
        → slice_get (G.streams streams.old) number ≡ Some s
        → Gave G.behaviour start s F
        → IsStopOf G.behaviour start number (G.streams streams.new) fault) }
    ensures names { G.names streams.new ≡ G.names streams.old }
{
    while streams.head(number).is_some() {
        streams.advance(number, alloc)?;
    }
    Ok(())
}
