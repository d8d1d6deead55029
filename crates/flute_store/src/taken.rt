//! What a datagram added to a store, or why it was not taken.

use flute_parts::Key;
use flute_wire::Refusal;
use thiserror::Error;

/// What a datagram added.
#[derive(Drop)]
pub struct Taken {
    /// The object that it is of.
    pub key: Key,
    /// The number of its facts: 0, 1 or 2. They are counted whether or not they were known.
    pub facts: u64,
}

/// Why a datagram is not taken. The first that applies is returned, and after each the store is
/// unchanged.
#[derive(Clone, Copy, Debug, Error)]
pub enum TakeFault {
    /// The datagram is no packet, for this reason.
    #[error("{0}")]
    Datagram(Refusal),
    /// A fact of it needs a new session, object or symbol beyond the limits.
    #[error("full")]
    Full,
    /// A request for memory was refused.
    #[error("out of memory")]
    OutOfMemory,
}
