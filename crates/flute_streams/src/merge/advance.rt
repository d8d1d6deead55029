//! Advances all streams together that are at the address that was written, and says which.
ghost use Rattle.std.specs.Prelude.{◌≡◌, ◌≢◌, ◌<◌, true, false, length, IfOk, IfErr};
ghost use Rattle.std.specs.Prelude.{option_copied};
ghost use Rattle.flute_streams.specs.Advances.{GoOnAt, StopsIn};
ghost use Rattle.flute_streams.specs.Lowest.{held_at};
ghost use Rattle.flute_streams.specs.Streams.{address_of};

use crate::merge::streams_fault::InputFault;
use crate::streams::Streams;
use flute_parts::Address;
use std::alloc::Global;

/// Which streams were advanced.
#[derive(Clone, Copy)]
pub struct Advanced {
    /// How many.
    pub count: usize,
    /// The number of the last of them. 0 if none was.
    pub last: usize,
}

/// Advances each stream that holds a fact at this address, or each that holds none, in their order.
/// The one with the number `first` is known to do so, if there is one.
///
/// # Errors
///
/// The fault of the first that stopped. Those after it are as they were.
#[tactic(auto, using(crate::proofs::merge_lemmas::GoingOn::goings))]
#[inline(always)]
pub fn advance_at<G: Streams>(
    alloc: Global,
    streams: &mut G,
    place: Option<&Address>,
    first: usize,
) -> Result<Advanced, InputFault>
    requires first { address_of (held_at G.behaviour (G.streams streams.old) first)
        ≡ option_copied place }
    ensures go_on { IfOk result (λ _. GoOnAt G.behaviour (option_copied place.entry)
        (G.streams streams.old) (G.streams streams.new)) }
    ensures last { IfOk result (λ moved.
        0 < moved.count → moved.last < length (G.streams streams.new)) }
    ensures stops { IfErr result
        (StopsIn G.behaviour (option_copied place.entry) (G.streams streams.old)
        (G.streams streams.new)) }
    ensures names { G.names streams.new ≡ G.names streams.old }
{
    let mut moved = Advanced { count: 0, last: 0 };
    for number in 0..streams.count() {
        if stands_at(streams, number, place, first) {
            if let Err(fault) = streams.advance(number, alloc) {
                return Err(InputFault { number, fault });
            }
            moved.count += 1;
            moved.last = number;
        }
    }
    Ok(moved)
}

// Whether the stream with this number is at this address, or holds nothing if there is none, as is
// known of the one with the number `first`.
#[inline(always)]
fn stands_at<G: Streams>(streams: &G, number: usize, place: Option<&Address>, first: usize) -> bool
    requires number { number < length (G.streams streams.now) }
    requires first { number ≡ first
        → address_of (held_at G.behaviour (G.streams streams.now) number)
        ≡ option_copied place }
    ensures at { result ≡ true
        → address_of (held_at G.behaviour (G.streams streams.now) number)
        ≡ option_copied place.entry }
    ensures elsewhere { result ≡ false
        → address_of (held_at G.behaviour (G.streams streams.now) number)
        ≢ option_copied place.entry }
{
    if number == first {
        return true;
    }
    match (streams.address(number), place) {
        (Some(here), Some(place)) => here == place,
        (None, None) => true,
        _ => false,
    }
}
