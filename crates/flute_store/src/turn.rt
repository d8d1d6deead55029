//! The turns of a scan over an object: what comes next.

use crate::gap::Gap;

/// What comes next of an object, whose held symbols are read along with those of its partition.
#[derive(Clone, Copy)]
pub enum Turn {
    /// A gap, which lies before the held symbol that was given, or ends with the one before it.
    Gap(Gap),
    /// The held symbol is the next one of the partition, as one fitting value.
    Fitting,
    /// The held symbol is the next one of the partition, in conflict or of a length that does not
    /// fit. The gap that it is in is given later.
    Wanted,
    /// The partition does not have the held symbol.
    Passed,
    /// No held symbol is left, and all gaps were given.
    End,
}
