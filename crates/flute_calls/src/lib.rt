//! The calls of a system, one at a time.
//!
//! [`Calls`] is what the files of a folder need of the system: each method is one call, and its
//! contract says what the call does to the disk ([`SystemCalls`] are those of the system). What
//! holds at any moment, also after a lost power, is then a theorem about calls.
#![tactic(auto)]

mod calls;
mod file_id;
mod folder_calls;
mod system_calls;

pub use calls::{CallFault, Calls, Seen};
pub use file_id::FileId;
pub use folder_calls::FolderCalls;
pub use system_calls::SystemCalls;
