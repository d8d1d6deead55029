//! What FLUTE receptions are made of: names, transmission information, partitions, facts and their
//! laws, and the devices that bytes come from and go to.
//!
//! An object is named by a [`Key`]: its session ([`SessionKey`]: the [`Sender`] and the TSI) and,
//! in that, an FDT Instance or a file ([`ObjectKey`]). Its [`Info`] says how it is cut into
//! symbols, and its [`Partition`] which these are (RFC 5052, section 9.1). A [`Fact`] is what is
//! known at one [`Address`]: the transmission information of an object, one of its symbols, or that
//! there were two values. Bytes are read from a [`Source`] and written to a [`Sink`].
//!
//! Ten symbols in blocks of at most four (from `flute_tests`):
//!
//! ```
//! let partition = Partition::of(&Info::new(10, 1, 4)?);
//! assert_eq!(rt; (partition.symbols(), partition.blocks()), (10, 3));
//! ```
#![tactic(auto)]

mod address;
mod buffered_source;
mod bytes;
mod device;
mod fact;
mod failures;
mod info;
mod key;
pub mod laws;
mod memory_sink;
mod memory_source;
mod object_key;
mod partition;
mod sender;
mod session_key;
mod source;
mod std_sink;
mod std_source;
mod symbol_id;
mod tally;

pub use address::{Address, Part};
pub use buffered_source::BufferedSource;
pub use bytes::{Bytes, BytesFault};
pub use device::{DeviceFault, Sink};
pub use fact::{Fact, FactRef};
pub use failures::Failures;
pub use info::{Info, InfoFault};
pub use key::Key;
pub use memory_sink::MemorySink;
pub use memory_source::MemorySource;
pub use object_key::{ObjectKey, ObjectName};
pub use partition::Partition;
pub use sender::Sender;
pub use session_key::SessionKey;
pub use source::Source;
pub use std_sink::StdSink;
pub use std_source::StdSource;
pub use symbol_id::SymbolId;
pub use tally::Tally;
