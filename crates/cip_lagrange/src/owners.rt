//! Whose each column and each row is.
ghost use Rattle.std.specs.Prelude.{◌≡◌, ◌<◌, ◌≤◌, length, replicate, IfOk, None};
ghost use Rattle.cip_problem.specs.BlockParts.{most_blocks};
ghost use Rattle.cip_problem.specs.BlockMeaning.{part_at};
ghost use Rattle.cip_lagrange.specs.Owners.{marked, owned_below};

use cip_model::Blocks;
use std::alloc::{AllocError, Global};

/// Gives these numbers to a block, as far as they stand in the list.
fn mark(owners: &mut [Option<u32>], numbers: &[u32], block: u32)
    ensures { owners.new ≡ marked numbers.now block owners.old }
{
    for number in numbers {
        let at = *number as usize;
        if at < owners.len() {
            owners[at] = Some(block);
        }
    }
}

/// The block of each of so many columns, if it has one.
pub(crate) fn column_owners(
    alloc: Global,
    blocks: &Blocks,
    columns: usize,
) -> Result<Vec<Option<u32>>, AllocError>
    requires { length blocks.now.blocks ≤ most_blocks }
    ensures { IfOk result (λ owners. owners.items ≡ owned_below (λ block. (part_at blocks.now block).columns)
        (length blocks.now.blocks) (replicate columns None)) }
{
    let mut owners: Vec<Option<u32>> = vec![in alloc; None; columns]?;
    for block in 0..blocks.count() {
        mark(owners.as_mut_slice(), blocks.columns(block), block as u32);
    }
    Ok(owners)
}

/// The block of each of so many rows, if it has one.
pub(crate) fn row_owners(
    alloc: Global,
    blocks: &Blocks,
    rows: usize,
) -> Result<Vec<Option<u32>>, AllocError>
    requires { length blocks.now.blocks ≤ most_blocks }
    ensures { IfOk result (λ owners. owners.items ≡ owned_below (λ block. (part_at blocks.now block).rows)
        (length blocks.now.blocks) (replicate rows None)) }
{
    let mut owners: Vec<Option<u32>> = vec![in alloc; None; rows]?;
    for block in 0..blocks.count() {
        mark(owners.as_mut_slice(), blocks.rows(block), block as u32);
    }
    Ok(owners)
}
