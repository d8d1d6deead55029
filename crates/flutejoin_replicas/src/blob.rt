//! A whole input in memory: a journal or a datagram file as bytes.

use flute_parts::{DeviceFault, Source};
use std::alloc::{AllocError, Global};
use std::marker::Model;
use thiserror::Error;

/// The most bytes of an input.
const MAX_LEN: usize = 4_294_967_295;

/// The most bytes that are read at a time.
const PIECE: usize = 65_536;

/// Why an input is not kept: the first reason that is met. Shown by its name.
#[derive(Clone, Copy, Debug, PartialEq, Eq, Error)]
pub enum BlobFault {
    /// The source failed.
    #[error("Read")]
    Read,
    /// There are more than 4,294,967,295 bytes.
    #[error("TooLarge")]
    TooLarge,
    /// A request for memory was refused.
    #[error("OutOfMemory")]
    OutOfMemory,
}

impl From<DeviceFault> for BlobFault {
    ghost use Rattle.flutejoin_replicas.specs.declared.blob.BlobFault.TheVariants.{Read};
    ghost use Rattle.std.specs.Prelude.{◌≡◌};

    ghost from_gives = { λ why fault. fault ≡ Read };

    fn from(_why: DeviceFault) -> BlobFault {
        BlobFault::Read
    }
}

impl From<AllocError> for BlobFault {
    ghost use Rattle.flutejoin_replicas.specs.declared.blob.BlobFault.TheVariants.{OutOfMemory};
    ghost use Rattle.std.specs.Prelude.{◌≡◌};

    ghost from_gives = { λ why fault. fault ≡ OutOfMemory };

    fn from(_why: AllocError) -> BlobFault {
        BlobFault::OutOfMemory
    }
}

/// The bytes of a whole input, at most 4,294,967,295.
#[derive(Debug, Drop)]
pub struct Blob {
    bytes: Vec<u8>,
}

impl Model for Blob {
    ghost use Rattle.std.specs.Prelude.{ℕ, List, ◌≤◌, length};

    ghost Value = { List ℕ };

    ghost view = { λ b. b.bytes.items };

    ghost invariant = { λ b. length b.bytes.items ≤ 4294967295 };
}

impl Blob {
    ghost use Rattle.std.specs.Prelude.{◌≡◌, ◌≤◌, ◌+◌, length, IfOk, IfErr, IfSome, OnOk};
    ghost use Rattle.std.specs.Io.KnownBytes.{IsAtEnd};
    ghost use Rattle.flutejoin_replicas.specs.Blob.{IsBlobFault, blob_failed};

    /// All that the source has. It reads up to 65,536 bytes at a time.
    ///
    /// # Errors
    ///
    /// The first that is met: `Read` if the source fails, `TooLarge` after 4,294,967,295 bytes,
    /// and `OutOfMemory` if there is no memory for the bytes.
    pub fn read<R: Source>(alloc: Global, source: &mut R) -> Result<Blob, BlobFault>
        ensures bytes { IfOk result
            (λ blob. IfSome (R.unread source.old) (λ bytes. blob ≡ bytes)) }
        ensures end { OnOk result (IsAtEnd (R.unread source.new)) }
        ensures limit { IfOk result (λ blob. length blob ≤ 4294967295) }
        ensures fault { IfErr result (IsBlobFault (R.unread source.old)) }
        ensures failures { R.failures source.new ≡ R.failures source.old + blob_failed result }
    {
        let mut piece = vec![in alloc; 0; PIECE]?;
        let mut bytes = Vec::new(alloc);
        loop {
            let count = source.read(&mut piece)?;
            if count == 0 {
                return Ok(Blob { bytes });
            }
            if count > MAX_LEN - bytes.len() {
                return Err(BlobFault::TooLarge);
            }
            bytes.extend_from_slice(&piece[..count])?;
        }
    }

    /// The bytes, at most 4,294,967,295.
    pub fn as_slice(&self) -> &[u8]
        ensures bytes { result.now ≡ self.now }
        ensures limit { length self.now ≤ 4294967295 }
    {
        &self.bytes
    }
}
