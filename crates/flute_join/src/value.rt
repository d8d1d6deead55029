//! The trait `Value`: what a cell holds one of.
ghost use Rattle.std.specs.Prelude.{◌≡◌, true, IfOk, IfErr};
ghost use Rattle.std.proofs.lemmas.Map.Views.{exact_unsigned_eq};

use crate::refusal::JoinRefusal;
use std::alloc::Global;

/// A value that a cell can hold. Values that compare equal are one value.
pub trait Value: Eq + Drop {
    /// A second value, equal to this one. The only refusal is `OutOfMemory`.
    fn copy(&self, alloc: Global) -> Result<Self, JoinRefusal>
        ensures equal { IfOk result (λ copy. copy ≡ self.now) }
        ensures refused { IfErr result (λ why. why ≡ JoinRefusal.OutOfMemory) };

    // Values that compare equal are the same.
    ghost same_where_equal: { (x y : Self) → Self.eq x y ≡ true → x ≡ y };
}

impl Value for u8 {
    ghost same_where_equal = { exact_unsigned_eq };

    fn copy(&self, _alloc: Global) -> Result<u8, JoinRefusal> {
        Ok(*self)
    }
}
