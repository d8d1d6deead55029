//! Why a join is refused: the map is full, or there is no memory.
use thiserror::Error;

/// Why a join, a new entry or a copy is refused.
#[derive(Clone, Copy, Debug, PartialEq, Eq, Error)]
pub enum JoinRefusal {
    /// A map would have more keys than its limit.
    #[error("full")]
    Full,
    /// A request for memory was refused.
    #[error("out of memory")]
    OutOfMemory,
}
