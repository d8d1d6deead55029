//! Devices and folders for tests, which fail for good when a test wants it.
//!
//! [`ShortSource`] gives few bytes at a time, and fails once it has given so many; [`ShortSink`]
//! fails once it has taken so many. [`MemoryFolder`] and [`MemoryNewFolder`] do in memory what the
//! traits of `flute_output` ask, and fail after a given number of calls; [`MemoryCalls`] does what
//! the traits of `flute_calls` ask. Contracts see what they contain.
//!
//! A file in a folder in memory (from `flute_tests`):
//!
//! ```
//! let Ok(mut output) = Output::create(MemoryFolder::new(rt.alloc(), None, ENOUGH)) else {
//!     return Err("not made".into());
//! };
//! let done = output.write_all(NEW);
//! let (done, folder) = output.finish(done);
//! done?;
//! assert_eq!(rt; folder.out(), Some(NEW));
//! ```
#![tactic(auto)]

mod changes;
mod memory_calls;
mod memory_folder;
mod memory_new_folder;
mod short_sink;
mod short_source;

pub use changes::{Change, contents, target};
pub use memory_calls::{MemoryCalls, OneFolder, OpenAside, OpenFile};
pub use memory_folder::MemoryFolder;
pub use memory_new_folder::{MemoryFile, MemoryFiles, MemoryNewFolder};
pub use short_sink::ShortSink;
pub use short_source::ShortSource;
