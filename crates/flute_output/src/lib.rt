//! An output that becomes the file OUT whole or not at all.
//!
//! [`Output`] writes its bytes to a file beside OUT, and puts that in OUT's place once it is whole.
//! What it needs of a folder is the trait [`Folder`], which the system's folders meet
//! ([`DiskFolder`]), and those in memory of `flute_memory`, for tests. [`place_at`] returns
//! whether the path of an output leads to a file, to a device ([`DeviceFile`]) or to standard
//! output.
//!
//! Promised of each folder that meets the trait: at any moment OUT is what it was, or the new file,
//! whole ([`Output::finish`]).
//!
//! A file in a folder in memory (from `flute_tests`):
//!
//! ```
//! let Ok(mut output) = Output::create(MemoryFolder::new(rt.alloc(), None, ENOUGH)) else {
//!     return Err("not made".into());
//! };
//! let done = output.write_all(NEW);
//! let (done, folder) = output.finish(done);
//! done?;
//! assert_eq!(rt; folder.out(), Some(NEW));
//! ```
#![tactic(auto)]

mod beside;
mod buffered_file;
mod device_file;
mod disk_folder;
mod disk_new_folder;
mod file_limit;
mod filled_folder;
mod folder;
mod folder_beside;
mod found;
pub mod laws;
mod limited_stream;
mod name_pair;
mod new_folder;
mod output;
mod place;
mod streams;
mod waiting_file;

pub use beside::Wanted;
pub use device_file::DeviceFile;
pub use disk_folder::DiskFolder;
pub use disk_new_folder::DiskNewFolder;
pub use file_limit::FileLimit;
pub use filled_folder::finish_folder;
pub use folder::Folder;
pub use found::Found;
pub use limited_stream::LimitedStream;
pub use name_pair::NamePair;
pub use new_folder::NewFolder;
pub use output::{FinishFault, Output};
pub use place::{Place, place_at};
pub use streams::take_standard_streams;
