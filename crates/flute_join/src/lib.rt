//! Cells and maps that are joined: the state of a state-based CRDT (replicas that are merged, and
//! need no coordination).
//!
//! What is known at one address is a [`Cell`]: nothing, one value, or the conflict of two. Cells
//! are the flat join-semilattice `nothing < one value < conflict`, and a [`JoinMap`], which is
//! joined key by key, is a join-semilattice again. Its join is commutative, associative and
//! idempotent ([`laws`]), so the join of many parts does not depend on their order, on how they
//! are grouped, or on repeats.
//!
//! A join that is refused, by a limit or for lack of memory, leaves a value between the old one and
//! the join: joined again with success, it gives the join.
//!
//! Two values of one key are a conflict, however often each is joined (from `join_sample`):
//!
//! ```
//! absorb(&mut sessions, alloc, &one_symbol(alloc, 0, 5)?)?;
//! absorb(&mut sessions, alloc, &one_symbol(alloc, 3, 6)?)?;
//! absorb(&mut sessions, alloc, &one_symbol(alloc, 0, 5)?)?;
//! ```
#![tactic(auto)]

mod cell;
mod join;
mod join_into;
pub mod laws;
mod map;
mod map_key;
mod refusal;
mod value;

pub use cell::Cell;
pub use join::Join;
pub use join_into::JoinInto;
pub use map::{Entries, JoinMap};
pub use map_key::MapKey;
pub use refusal::JoinRefusal;
pub use value::Value;
