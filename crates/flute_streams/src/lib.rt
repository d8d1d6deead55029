//! Streams: facts in rising order, one at a time.
//!
//! Journals, stores and facts are merged as [`Stream`]s, in memory that does not grow with them
//! ([`merge_all`], [`join_streams`]): the result is the one journal of all that they contain, in
//! whatever order or grouping. A [`Choice`] says which facts of a stream are taken.
//!
//! The journal of both of two stations (from `reception_sample`):
//!
//! ```
//! let mut first = MemorySource::new(first);
//! let mut second = MemorySource::new(second);
//! let mut merged = MemorySink::new(alloc);
//! merge_streams(alloc, &mut first, &mut second, &mut merged, MANY)?;
//! ```
#![tactic(auto)]

mod choice;
pub mod laws;
mod merge;
mod streams;

pub use choice::Choice;
pub use choice::objects::Objects;
pub use choice::scope::Scope;
pub use choice::selection::{AllBut, Selection};
pub use choice::sessions::Sessions;
pub use merge::all_streams::{MergedJournal, join_streams, merge_all};
pub use merge::compare::compare_to;
pub use merge::one_stream::write_stream;
pub use merge::sides::{Row, Rows, Side, Sides};
pub use merge::streams_fault::{InputFault, StreamsFault};
pub use merge::two_streams::{MergeFault, merge_streams, merge_two};
pub use streams::Streams;
pub use streams::both::Both;
pub use streams::chained::Chained;
pub use streams::chosen::Chosen;
pub use streams::either::Either;
pub use streams::fact_stream::FactStream;
pub use streams::lent_stream::LentStream;
pub use streams::minus::Minus;
pub use streams::owned_journal_stream::OwnedJournalStream;
pub use streams::stream::Stream;
pub use streams::walk_stream::WalkStream;
