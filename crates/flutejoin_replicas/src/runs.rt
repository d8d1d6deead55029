//! Runs of steps on new replicas.
ghost use Rattle.std.specs.Prelude.{◌+◌, ◌*◌, ◌<◌, ◌^◌, IfOk, IfErr};
ghost use Rattle.flutejoin_replicas.specs.Held.{capacity};
ghost use Rattle.flutejoin_replicas.specs.Runs.{IsRunDone, IsRunRefused, StopsAtNeed};

use crate::replicas::Replicas;
use crate::steps::{Step, StepFault};
use std::alloc::Global;
use thiserror::Error;

/// Why a run stopped.
#[derive(Clone, Copy, Debug, PartialEq, Eq, Error)]
pub enum RunFault {
    /// There was no memory for the replicas.
    #[error("Start")]
    Start,
    /// A step was refused. Steps are numbered from 0.
    #[error("step {step}: {fault}")]
    At { step: usize, fault: StepFault },
}

/// Does all the steps in turn on this many new replicas, up to the first that is refused.
///
/// # Errors
///
/// `Start` if there is no memory for the replicas, and `At` with the number of the first step that
/// was refused. No step before it has a cause for a fault, and no run stops at a step that takes no
/// memory: a `Take` or an `Add` of what is held already, a `Take` of a refused datagram, or a
/// `Merge` of a replica into itself. No replica is returned then.
pub fn run<const SESSIONS: u32, const OBJECTS: u32, const SYMBOLS: u32>(
    alloc: Global,
    count: u32,
    steps: &[Step],
) -> Result<Replicas<SESSIONS, OBJECTS, SYMBOLS>, RunFault>
    requires { SESSIONS * OBJECTS * (SYMBOLS + 1) < 2 ^ 64 }
    ensures done { IfOk result (IsRunDone count steps.now) }
    ensures refused { IfErr result
        (IsRunRefused (capacity SESSIONS OBJECTS SYMBOLS) count steps.now) }
    ensures sure { IfErr result (StopsAtNeed count steps.now) }
{
    let Ok(mut replicas) = Replicas::new(alloc, count) else {
        return Err(RunFault::Start);
    };
    for (k, step) in steps.iter().enumerate() {
        if let Err(fault) = replicas.step(alloc, step) {
            return Err(RunFault::At { step: k, fault });
        }
    }
    Ok(replicas)
}
