//! The numbers that a join reports.

use crate::join::reasons::Reasons;

/// What a join has written, in numbers.
#[derive(Clone, Copy)]
pub struct JoinCounts {
    /// How many datagrams the datagram files among the inputs have.
    pub datagrams: u64,
    /// How many of these datagrams are refused. They contain no fact.
    pub refused: u64,
    /// How many for each reason.
    pub reasons: Reasons,
    /// How many entries and datagrams were passed over, since they are of objects that were not
    /// asked for. What is refused is not among them.
    pub others: u64,
    /// The number of the entries of the journal.
    pub entries: u64,
}
