//! A watcher: it takes datagrams, and knows when the object that it waits for is whole.
ghost use Rattle.std.specs.Prelude.{◌≡◌, ◌≢◌, ◌++◌, ◌⊎◌, true, false, Some, OnOk, OnErr};
ghost use Rattle.std.specs.Prelude.{IsOk, option_map};
ghost use Rattle.std.specs.List.{AllByRecursion};
ghost use Rattle.flute_parts.specs.Facts.{Same};
ghost use Rattle.flute_parts.specs.Information.{Information};
ghost use Rattle.flute_store.specs.Held.{HasCell};
ghost use Rattle.flute_store.specs.Objects.{Whole};
ghost use Rattle.flute_wire.specs.Content.{Content};
ghost use Rattle.flute_wire.specs.Datagram.{Spells};
ghost use Rattle.flute_wire.specs.Facts.{key_of};
ghost use Rattle.flute_wire.specs.Reading.{facts, packet};
ghost use Rattle.embedding_sample.specs.Waits.{Waits};

use flute_parts::{Info, Key, Partition, Sender};
use flute_store::laws::gaps_are_maximal_runs;
use flute_store::{Shelf, TakeFault};
use std::alloc::Global;

/// Takes a datagram of a sender, and returns whether it is of the object that is waited for, and
/// that is whole now.
///
/// # Errors
///
/// Those of [`Store::take`](flute_store::Store::take), after which the store is as it was. None
/// comes if the facts of the datagram are held already.
pub fn completes(
    alloc: Global,
    store: &mut Shelf,
    sender: Sender,
    datagram: &[u8],
    awaited: &Key,
    info: &Info,
) -> Result<bool, TakeFault>
    ensures taken { OnOk result (Same store.new (store.old ++ facts sender datagram.now)) }
    ensures whole { result ≡ Ok true
        → (held : Information) × Whole store.new awaited.now held }
    ensures waits { result ≡ Ok false
        → (option_map (key_of sender) (packet datagram.now) ≢ Some awaited.now)
        ⊎ Waits store.new awaited.now info.now }
    ensures sure { (p : Content) → Spells datagram.now p
        → AllByRecursion (HasCell store.old) (facts sender datagram.now) → IsOk result }
    ensures kept { OnErr result (store.new ≡ store.old) }
{
    match store.take(alloc, sender, datagram) {
        Ok(taken) => Ok(taken.key == *awaited && is_whole(store, awaited, info)),
        Err(fault) => Err(fault),
    }
}

/// Whether an object is whole, which is to have this transmission information. As long as fewer
/// symbols are held than that asks for, it takes a look-up, however many are held: it may be asked
/// after each datagram.
pub fn is_whole(store: &Shelf, key: &Key, info: &Info) -> bool
    ensures whole { result ≡ true → (held : Information) × Whole store.now key.now held }
    ensures waits { result ≡ false → Waits store.now key.now info.now }
{
    // By this the proof knows that an object is whole exactly if it has no gap.
    gaps_are_maximal_runs();
    let Some(held) = store.held(key) else {
        return false;
    };
    if u64::from(held) < Partition::of(info).symbols() {
        return false;
    }
    match store.gaps(key) {
        Ok(mut gaps) => gaps.next().is_none(),
        Err(_) => false,
    }
}
