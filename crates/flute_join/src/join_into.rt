//! The trait `JoinInto`: what is joined into the values of a map, as one fact into a whole object.
ghost use Rattle.std.specs.Prelude.{◌≡◌, IfOk, IfErr};

use crate::join::Join;
use crate::refusal::JoinRefusal;
use std::alloc::Global;

/// What is joined into a value, or becomes one where there is none.
pub trait JoinInto<V: Join>: Drop {
    // The value that it is joined as.
    ghost value: { Self → V };

    // What has to hold of it to become a value.
    ghost fits: { Self → Type 0 };

    /// Joins it into a value. It takes no memory, and is never refused.
    fn join_into(&self, held: &mut V)
        requires { V.sound held.old }
        ensures { held.new ≡ V.joined held.old (value self.now) };

    /// The value that it becomes. The only refusal is `OutOfMemory`.
    fn into_value(self, alloc: Global) -> Result<V, JoinRefusal>
        requires { fits self }
        ensures ok { IfOk result (λ v. v ≡ value self) }
        ensures err { IfErr result (λ why. why ≡ JoinRefusal.OutOfMemory) };
}
