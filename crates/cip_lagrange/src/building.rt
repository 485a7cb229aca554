//! A program and its blocks, taken apart.
ghost use Rattle.std.specs.Prelude.{◌≡◌, ◌<◌, length, IfOk};
ghost use Rattle.cip_problem.specs.WellFormed.{columns};
ghost use Rattle.cip_problem.specs.BlockMeaning.{part_at, AreBlocks};
ghost use Rattle.cip_lagrange.specs.Built.{IsBuilt, AreBuilt};
ghost use Rattle.cip_lagrange.specs.Decompositions.{IsDecompositionOf, HasOwnersOf};

use crate::owners::{column_owners, row_owners};
use crate::parts::{Decomposed, Subproblem};
use crate::picking::{choices_at, flags_at, rows_at, sides_at};
use crate::places::places_of;
use cip_model::{Blocks, Program};
use std::alloc::{AllocError, Global};

/// What a block asks of its points, by the place of each column in its block.
fn subproblem(
    alloc: Global,
    program: &Program,
    blocks: &Blocks,
    places: &[u32],
    block: usize,
) -> Result<Subproblem, AllocError>
    requires block { block < length blocks.now.blocks }
    requires places { length places.now ≡ columns program.now }
    ensures { IfOk result (IsBuilt program.now places.now (part_at blocks.now block)) }
{
    let columns = blocks.columns(block);
    let Ok(rows) = rows_at(alloc, program.rows(), blocks.rows(block), places) else {
        return Err(AllocError);
    };
    let Ok(whole) = flags_at(alloc, program.whole(), columns) else {
        return Err(AllocError);
    };
    let Ok(choices) = choices_at(alloc, program.choices(), columns) else {
        return Err(AllocError);
    };
    let Ok(bounds) = sides_at(alloc, program.bounds(), columns) else {
        drop(choices);
        return Err(AllocError);
    };
    Ok(Subproblem {
        rows,
        whole,
        choices,
        bounds,
    })
}

/// What each block asks of its points, by the number of the block.
fn subproblems(
    alloc: Global,
    program: &Program,
    blocks: &Blocks,
    places: &[u32],
) -> Result<Vec<Subproblem>, AllocError>
    requires places { length places.now ≡ columns program.now }
    ensures { IfOk result (λ parts. AreBuilt program.now places.now blocks.now parts.items) }
{
    let mut parts = Vec::new(alloc);
    for block in 0..blocks.count() {
        parts.push(subproblem(alloc, program, blocks, places, block)?)?;
    }
    Ok(parts)
}

impl Decomposed {
    /// A program taken apart by its blocks; `Err` where the memory for it was refused. Each column and each row has the
    /// block that it has there, and each block asks of its points what the program asks of their columns.
    pub fn new(alloc: Global, program: &Program, blocks: &Blocks) -> Result<Decomposed, AllocError>
        requires { AreBlocks program.now blocks.now }
        ensures made { IfOk result (IsDecompositionOf program.now) }
        ensures owners { IfOk result (HasOwnersOf program.now blocks.now) }
    {
        let Ok(column_owners) = column_owners(alloc, blocks, program.columns()) else {
            return Err(AllocError);
        };
        let Ok(row_owners) = row_owners(alloc, blocks, program.rows().len()) else {
            return Err(AllocError);
        };
        let columns = column_owners.as_slice();
        let count = blocks.count();
        let Ok(places) = places_of(alloc, count, columns) else {
            return Err(AllocError);
        };
        let Ok(kept) = Blocks::new(alloc, count, row_owners.as_slice(), columns) else {
            return Err(AllocError);
        };
        let Ok(subproblems) = subproblems(alloc, program, &kept, places.as_slice()) else {
            drop(kept);
            return Err(AllocError);
        };
        Ok(Decomposed {
            blocks: kept,
            column_owners,
            row_owners,
            places,
            subproblems,
        })
    }
}
