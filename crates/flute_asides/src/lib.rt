//! What is put aside: bytes in a file without a name.
#![tactic(auto)]

mod aside_calls;
mod aside_file;
mod aside_reader;
mod making;
mod pouring;
mod system_asides;
mod unnamed_file;

pub use aside_calls::AsideCalls;
pub use aside_file::AsideFile;
pub use aside_reader::AsideReader;
pub use making::unnamed;
pub use system_asides::SystemAsides;
pub use unnamed_file::UnnamedFile;
