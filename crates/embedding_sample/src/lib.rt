//! Six callers of the libraries, with contracts that say what their users rely on. Each is proved
//! from the public clauses of the libraries alone, without a written proof.
#![tactic(auto)]

mod answering;
mod both;
mod file;
mod missing;
mod watcher;
mod whole_file;

pub use answering::answer;
pub use both::journal_of_both;
pub use file::datagrams_of;
pub use missing::differences;
pub use watcher::{completes, is_whole};
pub use whole_file::file_of;

#[cfg(test)]
mod tests;
