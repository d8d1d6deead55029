//! Why streams could not be merged: the fault of one of them, or of the sink.

use flute_journal::LoadFault;
use thiserror::Error;

/// The fault of one of several inputs.
#[derive(Clone, Copy, Debug, Error)]
#[error("{number} {fault}")]
pub struct InputFault {
    /// The number of the input, from 0.
    pub number: usize,
    /// Why it was read no further.
    pub fault: LoadFault,
}

/// Why streams could not be merged.
#[derive(Clone, Copy, Debug, Error)]
pub enum StreamsFault {
    /// One of them stopped.
    #[error("{0}")]
    Input(InputFault),
    /// The sink failed.
    #[error("Write")]
    Write,
}
