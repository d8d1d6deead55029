//! What the inputs of several stations contain together.

use crate::limits::{MAX_OBJECTS, MAX_SESSIONS, MAX_SYMBOLS};
use flute_store::Store;

/// What inputs contain together, within these limits.
#[derive(Drop)]
pub struct Joined<const SESSIONS: u32, const OBJECTS: u32, const SYMBOLS: u32> {
    /// The facts of all of them.
    pub store: Store<SESSIONS, OBJECTS, SYMBOLS>,
    /// How many datagrams the datagram files among them have.
    pub datagrams: u64,
    /// How many of these datagrams are refused. They contain no fact.
    pub refused: u64,
}

/// What inputs contain together, within the limits of a [`Shelf`](flute_store::Shelf).
pub type JoinedShelf = Joined<MAX_SESSIONS, MAX_OBJECTS, MAX_SYMBOLS>;
