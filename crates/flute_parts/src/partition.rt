//! The block partition of an object (RFC 5052, section 9.1).
ghost use Rattle.std.specs.Prelude.{◌≡◌, ◌≤◌, ◌^◌, length, slice_get, slice_index};
ghost use Rattle.flute_parts.specs.Information.{sizes};
ghost use Rattle.flute_parts.specs.Partition.{ids, place, fits};

use crate::info::Info;
use crate::symbol_id::SymbolId;
use std::marker::Model;

/// How an object is cut into source blocks, and these into symbols (RFC 5052, section 9.1).
///
/// Its symbols are listed block after block, and in a block by their encoding symbol ID from 0 on:
/// the place of a symbol is its number in that list, from 0. The larger blocks come first. Every
/// call takes constant time, and no memory.
#[derive(Drop)]
pub struct Partition {
    info: Info,
    symbols: u64,
    large_blocks: u32,
    small_blocks: u32,
    // The length of a smaller block in symbols. A larger one has one more.
    small_length: u32,
}

impl Model for Partition {
    ghost use Rattle.flute_parts.specs.Information.{Information};
    ghost use Rattle.flute_parts.specs.Split.{IsSplit};

    ghost Value = { Information };

    ghost view = { λ p. p.info };

    ghost invariant = { λ p. IsSplit p.info p.symbols
        p.large_blocks p.small_blocks p.small_length };
}

impl Partition {
    /// The partition of an object with this transmission information.
    pub fn of(info: &Info) -> Partition
        ensures { result ≡ info.now }
    {
        if info.length() == 0 {
            return Partition {
                info: *info,
                symbols: 0,
                large_blocks: 0,
                small_blocks: 0,
                small_length: 0,
            };
        }
        let symbols = info.length().div_ceil(u64::from(info.symbol()));
        let blocks = symbols.div_ceil(u64::from(info.block()));
        let large_blocks = symbols % blocks;
        Partition {
            info: *info,
            symbols,
            large_blocks: large_blocks as u32,
            small_blocks: (blocks - large_blocks) as u32,
            small_length: (symbols / blocks) as u32,
        }
    }

    /// The number of symbols, at most 2^32.
    pub fn symbols(&self) -> u64
        ensures value { result ≡ length (ids self.now) }
        ensures bound { result ≤ 2 ^ 32 }
    {
        self.symbols
    }

    /// The number of source blocks, at most 65,536.
    pub fn blocks(&self) -> u32
        ensures value { result ≡ length (sizes self.now) }
        ensures bound { result ≤ 65536 }
    {
        self.large_blocks + self.small_blocks
    }

    /// The number of symbols in the block of this source block number, at most 65,536. 0 if
    /// there is no such block.
    pub fn block_len(&self, sbn: u16) -> u32
        ensures value { result ≡ slice_index (sizes self.now) sbn }
        ensures bound { result ≤ 65536 }
    {
        let block = u32::from(sbn);
        if block < self.large_blocks {
            self.small_length + 1
        } else if block < self.large_blocks + self.small_blocks {
            self.small_length
        } else {
            0
        }
    }

    /// The place of a symbol. None if the object has no such symbol.
    pub fn place(&self, id: SymbolId) -> Option<u64>
        ensures { result ≡ place self.now id }
    {
        if u32::from(id.esi) >= self.block_len(id.sbn) {
            return None;
        }
        let block = u64::from(id.sbn);
        let small_length = u64::from(self.small_length);
        // Each larger block has one symbol more than the smaller ones.
        let larger = block.min(u64::from(self.large_blocks));
        Some(block * small_length + larger + u64::from(id.esi))
    }

    /// The symbol at a place. None from the number of symbols on.
    pub fn id_at(&self, place: u64) -> Option<SymbolId>
        ensures { result ≡ slice_get (ids self.now) place }
    {
        if place >= self.symbols {
            return None;
        }
        let large_blocks = u64::from(self.large_blocks);
        let small_length = u64::from(self.small_length);
        let in_large = large_blocks * (small_length + 1);
        if place < in_large {
            return Some(SymbolId {
                sbn: (place / (small_length + 1)) as u16,
                esi: (place % (small_length + 1)) as u16,
            });
        }
        let rest = place - in_large;
        Some(SymbolId {
            sbn: (large_blocks + rest / small_length) as u16,
            esi: (rest % small_length) as u16,
        })
    }

    /// Whether `len` bytes can be the symbol: as many as the encoding symbol length, or, of the
    /// last symbol, as many as the object still has there, without padding (RFC 5445, section 3.4).
    /// False if the object has no such symbol.
    pub fn fits(&self, id: SymbolId, len: usize) -> bool
        ensures { result ≡ fits self.now id len }
    {
        let Some(place) = self.place(id) else {
            return false;
        };
        let symbol = u64::from(self.info.symbol());
        let len = len as u64;
        len == symbol
            || place + 1 == self.symbols && len == self.info.length() - (self.symbols - 1) * symbol
    }
}
