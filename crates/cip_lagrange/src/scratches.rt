//! What the Lagrangian bound works in.
ghost use Rattle.std.specs.Prelude.{◌≡◌, ◌<◌, ◌≤◌, length, All, IfOk};
ghost use Rattle.cip_problem.specs.Limits.{most_columns};
ghost use Rattle.cip_lagrange.specs.Numbers.{found};
ghost use Rattle.cip_lagrange.specs.Decompositions.{IsDecompositionOf};
ghost use Rattle.cip_lagrange.specs.Scratches.{FitsBlock, FitsScratch, AreFitting};

use crate::regions::TreeRegion;
use crate::{Decomposed, Program, Subproblem};
use cip_cert::SparseRow;
use cip_frac::Frac;
use cip_lin::Bounds;
use std::alloc::{AllocError, Global};

/// The box and the costs of a block, which are set anew for each bound.
#[derive(Drop)]
pub struct BlockScratch {
    /// The box, with the program's choices of the block's columns.
    pub region: TreeRegion,
    /// What is left of the costs of the block's columns.
    pub costs: Vec<Frac>,
}

/// What the Lagrangian bound of a program works in, made once for its blocks and reused from call to call.
#[derive(Drop)]
pub struct LagrangeScratch {
    /// What is left of the costs of each column.
    pub rests: Vec<Frac>,
    /// The box and the costs of each block.
    pub blocks: Vec<BlockScratch>,
    /// A row for the checks of trees.
    pub row: SparseRow,
}

/// Sets costs to the rests at these numbers.
fn set_costs(costs: &mut [Frac], rests: &[Frac], numbers: &[u32])
    requires long { length costs.old ≡ length numbers.now }
    requires numbers { All (λ number. number < length rests.now) numbers.now }
    ensures { costs.new ≡ found rests.now numbers.now }
{
    for at in 0..numbers.len() {
        costs[at] = rests[numbers[at] as usize];
    }
}

/// Sets a box to the sides at these numbers.
fn set_box(own: &mut Bounds, bounds: &Bounds, numbers: &[u32])
    requires long { length own.old ≡ length numbers.now }
    requires few { length numbers.now ≤ most_columns }
    requires numbers { All (λ number. number < length bounds.now) numbers.now }
    ensures { own.new ≡ found bounds.now numbers.now }
{
    for at in 0..numbers.len() {
        own.set_sides(at as u32, bounds.sides(numbers[at]));
    }
}

impl BlockScratch {
    /// Room for a block, with its choices.
    fn new(alloc: Global, part: &Subproblem) -> Result<BlockScratch, AllocError>
        requires { length part.now.bounds ≡ length part.now.whole.items }
        ensures { IfOk result (FitsBlock part.now) }
    {
        let Ok(costs) = vec![in alloc; Frac::zero(); part.whole.len()] else {
            return Err(AllocError);
        };
        let Ok(bounds) = part.bounds.copied(alloc) else {
            return Err(AllocError);
        };
        let Ok(choices) = part.choices.copied(alloc) else {
            drop(bounds);
            return Err(AllocError);
        };
        Ok(BlockScratch {
            region: TreeRegion { bounds, choices },
            costs,
        })
    }

    /// Sets the box and the costs to the sides and rests of the program's columns with these numbers.
    pub(crate) fn fill(&mut self, rests: &[Frac], bounds: &Bounds, numbers: &[u32])
        requires costs { length self.old.costs.items ≡ length numbers.now }
        requires box_ { length self.old.region.bounds ≡ length numbers.now }
        requires few { length numbers.now ≤ most_columns }
        requires each { length bounds.now ≡ length rests.now }
        requires numbers { All (λ number. number < length rests.now) numbers.now }
        ensures costs { self.new.costs.items ≡ found rests.now numbers.now }
        ensures box_ { self.new.region.bounds ≡ found bounds.now numbers.now }
        ensures choices { self.new.region.choices ≡ self.old.region.choices }
    {
        set_costs(self.costs.as_mut_slice(), rests, numbers);
        set_box(&mut self.region.bounds, bounds, numbers);
    }
}

/// Room for each block.
fn rooms(alloc: Global, parts: &[Subproblem]) -> Result<Vec<BlockScratch>, AllocError>
    requires { All (λ part. length part.bounds ≡ length part.whole.items) parts.now }
    ensures { IfOk result (λ rooms. AreFitting parts.now rooms.items) }
{
    let mut rooms = Vec::new(alloc);
    for part in parts {
        let Ok(()) = rooms.reserve(1) else {
            return Err(AllocError);
        };
        let Ok(room) = BlockScratch::new(alloc, part) else {
            return Err(AllocError);
        };
        rooms.push_reserved(room);
    }
    Ok(rooms)
}

impl LagrangeScratch {
    /// Room for the bounds of a program and its blocks; `Err` where the memory for it was refused.
    pub fn new(
        alloc: Global,
        program: &Program,
        blocks: &Decomposed,
    ) -> Result<LagrangeScratch, AllocError>
        requires { IsDecompositionOf program.now blocks.now }
        ensures { IfOk result (FitsScratch program.now blocks.now) }
    {
        let columns = program.columns();
        let Ok(rests) = vec![in alloc; Frac::zero(); columns] else {
            return Err(AllocError);
        };
        let Ok(blocks) = rooms(alloc, blocks.subproblems.as_slice()) else {
            return Err(AllocError);
        };
        let Ok(row) = SparseRow::new(alloc, columns) else {
            return Err(AllocError);
        };
        Ok(LagrangeScratch { rests, blocks, row })
    }
}
