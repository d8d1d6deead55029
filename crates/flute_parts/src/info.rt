//! Transmission information of an object (FEC OTI): its three lengths, and when they are valid.
ghost use Rattle.std.specs.Prelude.{◌≡◌, Some, None, Ok, IfOk, IfErr, MatchResult};
ghost use Rattle.flute_parts.specs.Information.{information, info_fault};

use flute_join::{JoinRefusal, Value};
use std::alloc::Global;
use std::marker::Model;
use thiserror::Error;

/// What a receiver has to know of an object before it can put it together: its FEC
/// Object Transmission Information (RFC 5052, section 6.2.4) for Compact No-Code FEC
/// (RFC 5445, section 3.2.2).
///
/// It is always valid: the transfer length is below 2^48, and if that is not 0 the block
/// partition of RFC 5052, section 9.1 gives at most 65,536 blocks of at most 65,536 symbols each.
#[derive(Clone, Copy, Debug, PartialEq, Eq)]
pub struct Info {
    transfer_length: u64,
    symbol_length: u16,
    max_block_length: u32,
}

impl Model for Info {
    ghost use Rattle.flute_parts.specs.Information.{Information, IsValid, information};

    ghost Value = { Information };

    ghost view = { λ i. information i.transfer_length i.symbol_length i.max_block_length };

    ghost invariant = { λ i. IsValid
        (information i.transfer_length i.symbol_length i.max_block_length) };

    ghost inverse = { λ v. record {
      transfer_length = v.transfer_length;
      symbol_length = v.symbol_length;
      max_block_length = v.max_block_length;
    } };
}

/// Why numbers are not valid transmission information. The first that applies is returned.
#[derive(Clone, Copy, Debug, PartialEq, Eq, Error)]
pub enum InfoFault {
    /// The transfer length is 2^48 or more.
    #[error("Length")]
    Length,
    /// There are bytes to send, and the encoding symbol length is 0.
    #[error("SymbolLength")]
    SymbolLength,
    /// There are bytes to send, and the maximum source block length is 0.
    #[error("BlockLength")]
    BlockLength,
    /// There are more than 65,536 source blocks.
    #[error("TooManyBlocks")]
    TooManyBlocks,
    /// A source block has more than 65,536 symbols.
    #[error("BlockTooLong")]
    BlockTooLong,
}

impl Info {
    ghost use Rattle.flute_parts.specs.Information.{IsValid};

    /// The transmission information of an object of `length` bytes, in symbols of `symbol` bytes
    /// and blocks of at most `block` symbols. If `length` is 0, the other two may be anything.
    ///
    /// # Errors
    ///
    /// The first [`InfoFault`] that applies, in the order of that list.
    pub fn new(length: u64, symbol: u16, block: u32) -> Result<Info, InfoFault>
        ensures { MatchResult result
            (λ info. (info ≡ information length symbol block) × (info_fault info ≡ None))
            (λ fault. info_fault (information length symbol block) ≡ Some fault) }
    {
        if length >= 1 << 48 {
            return Err(InfoFault::Length);
        }
        if length > 0 {
            if symbol == 0 {
                return Err(InfoFault::SymbolLength);
            }
            if block == 0 {
                return Err(InfoFault::BlockLength);
            }
            let symbols = length.div_ceil(u64::from(symbol));
            let blocks = symbols.div_ceil(u64::from(block));
            if blocks > 65_536 {
                return Err(InfoFault::TooManyBlocks);
            }
            if symbols.div_ceil(blocks) > 65_536 {
                return Err(InfoFault::BlockTooLong);
            }
        }
        Ok(Info {
            transfer_length: length,
            symbol_length: symbol,
            max_block_length: block,
        })
    }

    /// The transfer length: how many bytes the object has, below 2^48.
    pub fn length(&self) -> u64
        ensures value { result ≡ self.now.transfer_length }
        ensures valid { IsValid self.now }
    {
        self.transfer_length
    }

    /// The encoding symbol length, in bytes.
    pub fn symbol(&self) -> u16
        ensures value { result ≡ self.now.symbol_length }
        ensures valid { IsValid self.now }
    {
        self.symbol_length
    }

    /// The maximum source block length, in symbols.
    pub fn block(&self) -> u32
        ensures value { result ≡ self.now.max_block_length }
        ensures valid { IsValid self.now }
    {
        self.max_block_length
    }
}

impl Value for Info {
    ghost use Rattle.flute_parts.specs.Equality.{information_same};

    ghost same_where_equal = { information_same };

    /// The same transmission information. It takes no memory, and is never refused.
    fn copy(&self, _alloc: Global) -> Result<Info, JoinRefusal>
        ensures copied { result ≡ Ok self.now }
        ensures equal { IfOk result (λ copy. copy ≡ self.now) }
        ensures refused { IfErr result (λ why. why ≡ JoinRefusal.OutOfMemory) }
    {
        Ok(*self)
    }
}
