//! The command line of the program `flutejoin`: its words as what the program is to do.
//!
//! [`line_of`] reads the words with `clap`, and then the numbers, keys, senders and selections that
//! they contain.
//!
//! What the words say (from `flutejoin_tests`):
//!
//! ```
//! assert!(rt;
//!     matches!(
//!         line_of(rt.alloc(), &words)?,
//!         Line::Packet(PacketLine { hex: "10", .. })
//!     )
//! );
//! ```
#![tactic(auto)]

mod arguments;
mod carousel_line;
mod compare_line;
mod extract_line;
mod fill_line;
mod forget_line;
mod form;
mod gaps_line;
mod help_texts;
mod info_line;
mod inputs;
mod join_line;
mod join_words;
mod limit;
mod line;
mod listed_journal;
mod merge_line;
mod minus_line;
mod numbers;
mod objects;
mod packet_line;
mod pair;
mod parser;
mod selection_options;
mod show_line;
mod sizes;
mod target;
mod words;

pub use carousel_line::CarouselLine;
pub use compare_line::CompareLine;
pub use extract_line::{ExtractAllLine, ExtractLine};
pub use fill_line::FillLine;
pub use forget_line::{ForgetLine, ForgetListLine, ListedInputs};
pub use gaps_line::GapsLine;
pub use info_line::{InfoLine, InfoListLine};
pub use join_line::JoinLine;
pub use limit::Limit;
pub use line::{Line, line_of};
pub use listed_journal::ListedJournal;
pub use merge_line::MergeLine;
pub use minus_line::MinusLine;
pub use packet_line::PacketLine;
pub use show_line::ShowLine;
pub use target::Target;
