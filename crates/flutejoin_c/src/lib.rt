//! The library for C: calls over bytes in memory, which keep nothing between them.
//!
//! Each call gives bytes into the room that its caller has, as many as fit, and says how many there
//! are: [`flutejoin_c_merge`] those that the command `merge` writes, and so on;
//! [`flutejoin_c_entries`] gives entries. `flutejoin.h` has them under the names of C, where
//! pointers that a reference of Rattle cannot be are refused first.
//!
//! Two journals, merged (from `merge.rt`):
//!
//! ```
//! let mut held = MemorySink::new(alloc);
//! match merge(alloc, first, second, &mut held) {
//!     Ok(_entries) => answer.give(held.as_slice(), out),
//!     Err(fault) => answer.refuse(fault),
//! }
//! ```
#![tactic(auto)]

mod answer;
mod compare;
mod entries;
mod extract;
mod fill;
mod gaps;
mod join;
mod merge;
mod minus;
mod object;
mod packet;
mod status;
mod wide;

pub use answer::Answer;
pub use compare::flutejoin_c_compare;
pub use entries::{EntryFields, flutejoin_c_entries};
pub use extract::flutejoin_c_extract;
pub use fill::flutejoin_c_fill;
pub use gaps::flutejoin_c_gaps;
pub use join::{CountFields, OptionFields, flutejoin_c_join};
pub use merge::flutejoin_c_merge;
pub use minus::flutejoin_c_minus;
pub use object::ObjectFields;
pub use packet::{InfoFields, InstanceFields, PacketFields, SymbolFields, flutejoin_c_read};
pub use status::{StatusFields, flutejoin_c_status};
pub use wide::Wide;
