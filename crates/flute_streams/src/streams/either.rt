//! A stream that is of one kind or of another.

/// A stream of one kind or of another. No value of it is made: contracts list streams of two kinds
/// by it.
#[derive(Drop)]
pub enum Either<A, B> {
    /// Of the one.
    First(A),
    /// Of the other.
    Second(B),
}
