//! The symbols of a partition, listed one after the other.
ghost use Rattle.std.specs.Prelude.{◌≡◌, ◌≤◌, ◌++◌, replicate, IfOk, OnOk};
ghost use Rattle.flute_parts.specs.Information.{sizes, IsValid};
ghost use Rattle.flute_parts.specs.Partition.{ids, block_ids};

use flute_parts::{Info, SymbolId};
use std::alloc::{AllocError, Global};

/// All the symbols.
pub fn listed(alloc: Global, info: &Info) -> Result<Vec<SymbolId>, AllocError>
    ensures { IfOk result (λ found. found.items ≡ ids info.now) }
{
    let mut found = Vec::new(alloc);
    let lengths = block_lengths(alloc, info)?;
    for (sbn, &length) in lengths.iter().enumerate() {
        list_block(&mut found, sbn as u16, length)?;
    }
    Ok(found)
}

/// The number of symbols of each block.
fn block_lengths(alloc: Global, info: &Info) -> Result<Vec<u64>, AllocError>
    ensures { IfOk result (λ lengths. (lengths.items ≡ sizes info.now) × IsValid info.now) }
{
    if info.length() == 0 {
        return Ok(Vec::new(alloc));
    }
    let symbols = info.length().div_ceil(u64::from(info.symbol()));
    let blocks = symbols.div_ceil(u64::from(info.block()));
    let small = symbols / blocks;
    let large_blocks = symbols - small * blocks;
    two_lengths(
        alloc,
        large_blocks,
        symbols.div_ceil(blocks),
        blocks - large_blocks,
        small,
    )
}

fn two_lengths(
    alloc: Global,
    large_blocks: u64,
    large: u64,
    small_blocks: u64,
    small: u64,
) -> Result<Vec<u64>, AllocError>
    ensures { IfOk result (λ lengths. lengths.items
        ≡ replicate large_blocks large ++ replicate small_blocks small) }
{
    let mut lengths = vec![in alloc; large; large_blocks as usize]?;
    let rest = vec![in alloc; small; small_blocks as usize]?;
    lengths.extend_from_slice(&rest)?;
    Ok(lengths)
}

fn list_block(found: &mut Vec<SymbolId>, sbn: u16, length: u64) -> Result<(), AllocError>
    requires { length ≤ 65536 }
    ensures { OnOk result (found.new.items ≡ found.old.items ++ block_ids (sbn, length)) }
{
    for esi in 0..length {
        found.push(SymbolId {
            sbn,
            esi: esi as u16,
        })?;
    }
    Ok(())
}
