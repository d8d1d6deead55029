//! A gap: consecutive symbols of one block that lack a fitting value, and why.

/// Why a symbol of an object's partition is not held as one fitting value.
#[derive(Clone, Copy, Debug, PartialEq, Eq)]
pub enum Reason {
    /// Nothing of it is held.
    Missing,
    /// Two values of it came.
    Conflicting,
    /// The one value of it has a length that does not fit.
    Misfit,
}

/// Symbols of one source block that follow one another and are missing for one reason: those with
/// the encoding symbol IDs from `first` to `last`, both among them (RFC 5445, section 3.2.1).
#[derive(Clone, Copy, Debug, PartialEq, Eq)]
pub struct Gap {
    /// The source block number.
    pub sbn: u16,
    /// The first encoding symbol ID.
    pub first: u16,
    /// The last encoding symbol ID.
    pub last: u16,
    /// Why each of these symbols is missing.
    pub reason: Reason,
}
