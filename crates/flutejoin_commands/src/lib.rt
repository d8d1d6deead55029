//! The commands of the program `flutejoin`, each from its open inputs to what it leaves.
//!
//! A command that writes an output is a [`Work`], done by [`write_into`]: OUT is then what it
//! wrote, whole, and a report has its lines; or OUT is as it was. An output that takes its bytes
//! itself, as a pipe, is an [`Outlet`]: [`write_through`], [`write_held`]. [`gaps_on`] prints, and
//! [`open_inputs`] opens inputs by their names.
//!
//! Where an output is at a name, [`leave`] does one of these with what the name leads to, in a
//! [`World`]; [`join`], [`merge`], [`minus`], [`info`], [`extract`], [`carousel`], [`show`],
//! [`gaps`], [`compare`] and [`extract_all`] take a line of words alone, as
//! [`JoinLine`](flutejoin_line::JoinLine).
//!
//! Two journals, merged (from `commands.rt`):
//!
//! ```
//! let target = line.target;
//! let (first, second) = begin_with_two(world, target, line.a, line.b)?;
//! let work = MergeWork {
//!     alloc,
//!     first,
//!     second,
//! };
//! leave(
//!     world,
//!     target,
//!     work,
//!     Delivery::AtOnce(IfNoOutput::Report),
//!     output,
//!     errors,
//! )
//! ```
#![tactic(auto)]

mod adding;
mod adding_list;
mod beginning;
mod begun_output;
mod commands;
mod comparing;
mod delivery;
mod device_outlet;
mod extracting;
mod extracting_all;
mod filling;
mod forgetting;
mod joining;
mod leaving;
mod merging;
mod no_output;
mod opening;
mod opening_listed;
mod outlet;
mod outlet_command;
mod output_command;
mod printing;
mod prints;
mod sending;
mod subtracting;
mod work;
mod world;

pub use adding::InfoWork;
pub use adding_list::InfoListWork;
pub use commands::{carousel, extract, forget, forget_list, info, info_list, merge};
pub use comparing::compare_on;
pub use delivery::Delivery;
pub use extracting::ExtractWork;
pub use extracting_all::extract_all_into;
pub use filling::{FillWork, fill};
pub use forgetting::ForgetWork;
pub use joining::{JoinWork, join};
pub use leaving::leave;
pub use merging::MergeWork;
pub use no_output::{IfNoOutput, without_output};
pub use opening::{Inputs, open_inputs, open_two};
pub use opening_listed::open_listed;
pub use outlet::Outlet;
pub use outlet_command::{write_held, write_through};
pub use output_command::write_into;
pub use printing::{Listing, gaps_on, hand_on};
pub use prints::{compare, extract_all, gaps, packet, show};
pub use sending::SendWork;
pub use subtracting::{MinusWork, minus};
pub use work::Work;
pub use world::World;
