//! The steps that replicas take.

use crate::blob::Blob;
use flute_join::JoinRefusal;
use flute_journal::{LoadFault, ReadFault};
use flute_parts::{Fact, Sender};
use flute_wire::Datagram;
use thiserror::Error;

/// One thing that is done to replicas. Replicas are numbered from 0.
#[derive(Drop)]
pub enum Step {
    /// The replica takes a datagram that this sender sent. One that is refused gives nothing,
    /// and is counted.
    Take {
        replica: u32,
        sender: Sender,
        datagram: Datagram,
    },
    /// The replica takes what a journal of at most 16,777,216 entries has.
    Load {
        replica: u32,
        journal: Blob,
    },
    /// The replica takes a fact.
    Add {
        replica: u32,
        fact: Fact,
    },
    /// The replica `into` takes what the replica `from` has.
    Merge {
        into: u32,
        from: u32,
    },
    /// The replica is written as a journal and read back, with that bound on its entries.
    Reopen {
        replica: u32,
    },
}

/// Why a step was refused.
#[derive(Clone, Copy, Debug, PartialEq, Eq, Error)]
pub enum StepFault {
    /// The step names a replica that is not there.
    #[error("NoReplica")]
    NoReplica,
    /// What it reads is no journal of at most 16,777,216 entries, and this is its first fault.
    #[error("Journal {0}")]
    Journal(ReadFault),
    /// The facts need a session, object or symbol beyond the limits of a store.
    #[error("Full")]
    Full,
    /// A request for memory was refused.
    #[error("OutOfMemory")]
    OutOfMemory,
}

impl From<JoinRefusal> for StepFault {
    ghost use Rattle.flutejoin_replicas.specs.Faults.{fault_of_join};
    ghost use Rattle.std.specs.Prelude.{◌≡◌};

    ghost from_gives = { λ why fault. fault ≡ fault_of_join why };

    fn from(why: JoinRefusal) -> StepFault {
        match why {
            JoinRefusal::Full => StepFault::Full,
            JoinRefusal::OutOfMemory => StepFault::OutOfMemory,
        }
    }
}

impl From<LoadFault> for StepFault {
    ghost use Rattle.flutejoin_replicas.specs.Faults.{fault_of_load};
    ghost use Rattle.std.specs.Prelude.{◌≡◌};

    ghost from_gives = { λ why fault. fault ≡ fault_of_load why };

    fn from(why: LoadFault) -> StepFault {
        match why {
            LoadFault::Read(ReadFault::OutOfMemory) | LoadFault::OutOfMemory => {
                StepFault::OutOfMemory
            }
            LoadFault::Read(fault) => StepFault::Journal(fault),
            LoadFault::Full => StepFault::Full,
        }
    }
}
