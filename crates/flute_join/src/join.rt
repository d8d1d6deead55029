//! The trait `Join`: types whose values are joined, each with what its join may refuse.
ghost use Rattle.std.specs.Prelude.{◌≡◌, IfOk, OnOk, IfErr};
ghost use Rattle.flute_join.specs.Semilattice.{IsJoin, IsBelow};

use crate::refusal::JoinRefusal;
use std::alloc::Global;

/// A type whose values are joined. One value is below another if joining the
/// two gives the other.
pub trait Join: Drop {
    // The join of two values. It knows no limit.
    ghost joined: { Self → Self → Self };

    // The limits forbid the join of two values.
    ghost over: { Self → Self → Type 0 };

    // Joining the second value into the first may ask for memory.
    ghost needs_memory: { Self → Self → Type 0 };

    // What has to hold of the values in a map. A join keeps it, refused or not.
    ghost sound: { Self → Type 0 };

    /// Joins `other` into this value.
    ///
    /// `Full` comes only if the limits forbid the join, and then no join succeeds.
    /// `OutOfMemory` comes only if the join asked for memory and was refused. After a refusal
    /// this value is above the old one and below the join, so joining `other` again with
    /// success gives the join.
    fn join_from(&mut self, alloc: Global, other: &Self) -> Result<(), JoinRefusal>
        ensures ok { OnOk result (self.new ≡ joined self.old other.now) }

        // Whatever the result:
        ensures above_old { IsBelow joined self.old self.new }
        ensures below_join { IsBelow joined self.new (joined self.old other.now) }
        ensures stays_sound { sound self.old → sound other.now → sound self.new }

        ensures within { OnOk result (¬ over self.old other.now) }
        ensures full { IfErr result (λ why. why ≡ JoinRefusal.Full → over self.old other.now) }
        ensures memory { IfErr result (λ why. why ≡ JoinRefusal.OutOfMemory
            → needs_memory self.old other.now) };

    /// A second value, equal to this one. The only refusal is `OutOfMemory`.
    fn copy(&self, alloc: Global) -> Result<Self, JoinRefusal>
        ensures equal { IfOk result (λ copy. copy ≡ self.now) }
        ensures refused { IfErr result (λ why. why ≡ JoinRefusal.OutOfMemory) };

    // Joining is commutative, associative and idempotent.
    ghost join_laws: { IsJoin joined };
}
