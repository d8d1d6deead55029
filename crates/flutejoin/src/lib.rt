//! The commands of the program `flutejoin`, each over any source and sink.
//!
//! [`join_to`] joins journals and datagram files, [`gaps_from`] lists what is missing, and
//! [`extract_to`] writes an object exactly if it is whole. Replicas that take steps, and the
//! commands over a store, are in `flutejoin_replicas`.
//!
//! Inputs, joined (from `flutejoin_tests`):
//!
//! ```
//! let counts = join_to::<MAX_SESSIONS, MAX_OBJECTS, MAX_SYMBOLS, _, _, _>(
//!     alloc,
//!     &mut NoAsides::new(),
//!     u64::MAX,
//!     Sender::new(0),
//!     &Objects::of(Scope::all()),
//!     &mut inputs,
//!     sink,
//! )?;
//! ```
#![tactic(auto)]

mod aside;
mod carousel;
mod command_fault;
mod compare;
mod extract;
mod fill;
mod forget;
mod gaps;
mod info;
mod input_aside;
mod join;
pub mod laws;
mod limits;
mod lines;
mod merge;
mod minus;
mod next_entry;
mod nothing;
mod output_guard;
mod packet;
mod picks;
mod sender;
mod show;
mod walk;

pub use aside::{Aside, Asides};
pub use carousel::send_to;
pub use command_fault::{CommandFault, at_input, load_fault};
pub use compare::{CompareInput, compare_from, compare_input};
pub use extract::extract_all::extract_all_to;
pub use extract::extract_to;
pub use extract::file_names::{different_objects_have_different_names, file_name};
pub use extract::picked::Picked;
pub use fill::asking::Asking;
pub use fill::{FillInput, fill_input, fill_to};
pub use forget::forget_list::forget_list_to;
pub use forget::{ForgetCounts, ForgetInput, forget_input, forget_to};
pub use gaps::gaps_from;
pub use gaps::held_lines::{gap_text, status_text};
pub use info::info_list::info_list_to;
pub use info::info_to;
pub use input_aside::{is_too_large, put_aside};
pub use join::join_counts::JoinCounts;
pub use join::join_input::{JoinInput, JournalInput};
pub use join::join_to;
pub use join::joined::{Joined, JoinedShelf};
pub use join::peeked_source::PeekedSource;
pub use join::reasons::Reasons;
pub use join::without::{a_join_without_objects_writes_what_is_left, objects_without};
pub use limits::{
    ANY_OBJECTS, ANY_SESSIONS, ANY_SYMBOLS, DEFAULT_MEMORY, MAX_ENTRIES, MAX_INPUTS, MAX_MEMORY,
    MAX_OBJECTS, MAX_SESSIONS, MAX_SYMBOLS,
};
pub use lines::compare_style::CompareStyle;
pub use lines::form::Form;
pub use lines::key_list::read_keys;
pub use lines::report::Report;
pub use lines::report_lines::{count_to, write_words};
pub use lines::show_style::ShowStyle;
pub use lines::style::Style;
pub use lines::text::Text;
pub use merge::merge_to;
pub use minus::{MinusInput, minus_input, minus_to};
pub use nothing::Nothing;
pub use output_guard::Overwrites;
pub use packet::packet_to;
pub use picks::{Listed, Picks};
pub use sender::{sender_in, sender_of};
pub use show::show_to;
