//! Why a journal or a datagram file could not be read or written.

use flute_join::JoinRefusal;
use flute_parts::{DeviceFault, InfoFault};
use thiserror::Error;

/// Why a journal could not be read: the first fault of its bytes in the order of their fields, or
/// why they were read no further.
#[derive(Clone, Copy, Debug, PartialEq, Eq, Error)]
pub enum ReadFault {
    /// The source failed.
    #[error("Read")]
    Read,
    /// The first four bytes are not `FLJN`.
    #[error("Magic")]
    Magic,
    /// The version is another.
    #[error("Version")]
    Version,
    /// An entry begins with a byte that is no kind, and is not the end.
    #[error("Kind")]
    Kind,
    /// The tag or the number of an object is out of its range.
    #[error("Key")]
    Key,
    /// Transmission information is not valid.
    #[error("Information {0}")]
    Information(InfoFault),
    /// A symbol has no byte.
    #[error("EmptySymbol")]
    EmptySymbol,
    /// The address of an entry is not above that of the entry before.
    #[error("Order")]
    Order,
    /// The number at the end is not that of the entries.
    #[error("Count")]
    Count,
    /// The input ends within a field.
    #[error("Cut")]
    Cut,
    /// There are more entries than the bound.
    #[error("TooMany")]
    TooMany,
    /// A byte follows the end.
    #[error("Trailing")]
    Trailing,
    /// There was no memory for the bytes of a symbol.
    #[error("OutOfMemory")]
    OutOfMemory,
}

/// Why a journal could not be written.
#[derive(Clone, Copy, Debug, Error)]
pub enum SaveFault {
    /// The sink failed. A proper prefix of the journal was written.
    #[error("Write")]
    Write,
}

impl From<DeviceFault> for SaveFault {
    fn from(_fault: DeviceFault) -> SaveFault {
        SaveFault::Write
    }
}

/// Why no store was read: the first reason that was met.
#[derive(Clone, Copy, Debug, PartialEq, Eq, Error)]
pub enum LoadFault {
    /// The journal could not be read.
    #[error("{0}")]
    Read(ReadFault),
    /// An entry needs a new session, object or symbol beyond the limits of the store.
    #[error("Full")]
    Full,
    /// There was no memory for an entry in the store.
    #[error("OutOfMemory")]
    OutOfMemory,
}

impl From<ReadFault> for LoadFault {
    ghost use Rattle.std.specs.Prelude.{◌≡◌};
    ghost use Rattle.flute_journal.specs.declared.fault.LoadFault.TheVariants.{Read};

    ghost from_gives = { λ why fault. fault ≡ Read why };

    fn from(why: ReadFault) -> LoadFault {
        LoadFault::Read(why)
    }
}

impl From<JoinRefusal> for LoadFault {
    ghost use Rattle.std.specs.Prelude.{◌≡◌};
    ghost use Rattle.flute_journal.specs.Stores.{refused};

    ghost from_gives = { λ why fault. fault ≡ refused why };

    fn from(why: JoinRefusal) -> LoadFault {
        match why {
            JoinRefusal::Full => LoadFault::Full,
            JoinRefusal::OutOfMemory => LoadFault::OutOfMemory,
        }
    }
}
