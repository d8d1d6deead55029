//! The state of a reader: what it reads next, the header, an item, nothing more, or that it failed.

use crate::fault::ReadFault;

/// What a reader of a header and items reads next. After whole items it keeps their place.
#[derive(Drop)]
pub enum ReaderState<P> {
    /// The header.
    Header,
    /// What follows whole items.
    Items(P),
    /// Nothing, since the end was read.
    Ended,
    /// Nothing, since a fault was met.
    Failed(ReadFault),
}
