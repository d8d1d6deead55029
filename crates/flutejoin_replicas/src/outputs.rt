//! What is written of a replica after a run.
ghost use Rattle.std.specs.Prelude.{◌≡◌, ◌+◌, ◌*◌, ◌<◌, ◌^◌, ℕ, List, OnOk, IfErr};
ghost use Rattle.flute_parts.specs.declared.fact.Fact.{Fact as Known};
ghost use Rattle.flutejoin_replicas.specs.Held.{capacity};
ghost use Rattle.flutejoin_replicas.specs.Known.{Fits, known_by};
ghost use Rattle.flutejoin_replicas.specs.Outputs.{TellsJournal, TellsObject, WritesAsOthers};
ghost use Rattle.flutejoin_replicas.specs.Outputs.{IsOutputFault, IsOutputNeed, output_failed};

use crate::runs::{RunFault, run};
use crate::steps::Step;
use flute_journal::{SaveFault, write_store};
use flute_parts::{Key, Sink};
use flute_store::ExtractFault;
use std::alloc::Global;
use thiserror::Error;

/// Why nothing, or not all, was written of a replica after a run.
#[derive(Clone, Copy, Debug, Error)]
pub enum OutputFault {
    /// The run stopped. Nothing was written.
    #[error("{0}")]
    Run(RunFault),
    /// There is no such replica. Nothing was written.
    #[error("NoReplica")]
    NoReplica,
    /// The sink failed. A proper prefix of the journal was written.
    #[error("{0}")]
    Save(SaveFault),
    /// The object is not whole, or the sink failed.
    #[error("{0}")]
    Extract(ExtractFault),
}

/// Does the steps on `count` new replicas, writes the journal of one of them, and returns the
/// number of its entries.
///
/// Replicas that were given the same set of facts write equal bytes, whatever the order and the
/// repeats, whatever was merged, and whatever journals were written and read between.
///
/// # Errors
///
/// `Run` with the fault of [`run`], and else `NoReplica` exactly if the replica is not there:
/// nothing was written then. `Save` if the sink failed: it then took a proper prefix of the
/// journal.
pub fn journal_after<const SESSIONS: u32, const OBJECTS: u32, const SYMBOLS: u32, W: Sink>(
    alloc: Global,
    count: u32,
    steps: &[Step],
    replica: u32,
    sink: &mut W,
) -> Result<u64, OutputFault>
    requires { SESSIONS * OBJECTS * (SYMBOLS + 1) < 2 ^ 64 }
    ensures journal { (origins : ℕ → List Known) → Fits steps.now origins
        → TellsJournal W.written (known_by count steps.now origins replica)
        sink.old sink.new result }
    ensures one { OnOk result
        (WritesAsOthers count steps.now replica (W.written sink.old) (W.written sink.new)) }
    ensures fault { IfErr result
        (IsOutputFault (capacity SESSIONS OBJECTS SYMBOLS) count steps.now replica) }
    ensures there { OnOk result (replica < count) }
    ensures sure { IfErr result (IsOutputNeed count steps.now) }
    ensures failures { W.failures sink.new ≡ W.failures sink.old + output_failed result }
{
    let replicas = match run::<SESSIONS, OBJECTS, SYMBOLS>(alloc, count, steps) {
        Ok(replicas) => replicas,
        Err(fault) => return Err(OutputFault::Run(fault)),
    };
    let Some(store) = replicas.store(replica) else {
        return Err(OutputFault::NoReplica);
    };
    store.keeps_order_and_limits();
    match write_store(store, sink) {
        Ok(entries) => Ok(entries),
        Err(fault) => Err(OutputFault::Save(fault)),
    }
}

/// Does the steps on `count` new replicas, writes an object that is whole with one of them, and
/// returns its length in bytes.
///
/// # Errors
///
/// `Run` with the fault of [`run`], and else `NoReplica` exactly if the replica is not there:
/// nothing was written then. `Extract` with the fault of
/// [`Store::extract`](flute_store::Store::extract), and what that leaves written.
pub fn object_after<const SESSIONS: u32, const OBJECTS: u32, const SYMBOLS: u32, W: Sink>(
    alloc: Global,
    count: u32,
    steps: &[Step],
    replica: u32,
    key: &Key,
    sink: &mut W,
) -> Result<u64, OutputFault>
    requires { SESSIONS * OBJECTS * (SYMBOLS + 1) < 2 ^ 64 }
    ensures object { (origins : ℕ → List Known) → Fits steps.now origins
        → TellsObject W.written (known_by count steps.now origins replica)
        sink.old sink.new key.now result }
    ensures fault { IfErr result
        (IsOutputFault (capacity SESSIONS OBJECTS SYMBOLS) count steps.now replica) }
    ensures there { OnOk result (replica < count) }
    ensures sure { IfErr result (IsOutputNeed count steps.now) }
    ensures failures { W.failures sink.new ≡ W.failures sink.old + output_failed result }
{
    let replicas = match run::<SESSIONS, OBJECTS, SYMBOLS>(alloc, count, steps) {
        Ok(replicas) => replicas,
        Err(fault) => return Err(OutputFault::Run(fault)),
    };
    match replicas.store(replica) {
        Some(store) => match store.extract(key, sink) {
            Ok(length) => Ok(length),
            Err(fault) => Err(OutputFault::Extract(fault)),
        },
        None => Err(OutputFault::NoReplica),
    }
}
