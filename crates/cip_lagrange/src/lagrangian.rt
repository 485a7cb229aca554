//! The Lagrangian bound.
ghost use Rattle.std.specs.Prelude.{◌≡◌, ◌<◌, length, slice_get, All, IfOk, Some, Ok, Err, MatchResult};
ghost use Rattle.cip_problem.specs.WellFormed.{columns};
ghost use Rattle.cip_problem.specs.BlockMeaning.{part_at};
ghost use Rattle.cip_lagrange.specs.declared.parts.Subproblem.{Subproblem};
ghost use Rattle.cip_lagrange.specs.Decompositions.{IsDecompositionOf};
ghost use Rattle.cip_lagrange.specs.TreeOutcomes.{node_in, tree_outcome};
ghost use Rattle.cip_lagrange.specs.LagrangeOutcomes.{asked_of, block_outcome, block_added, bounds_sum, blocks_added, multipliers_used, start_of, rests_added, lagrange_outcome};
ghost use Rattle.cip_lagrange.specs.LagrangeMeaning.{LagrangeFollows};
ghost use Rattle.cip_lagrange.specs.Scratches.{FitsBlock, FitsScratch, AreFitting, AreReady, CanBound};

use crate::answers::{LagrangeFault, TreeBound, TreeFault};
use crate::free::add_free;
use crate::multipliers::use_multipliers;
use crate::scratches::{BlockScratch, LagrangeScratch};
use crate::trees::bound_at;
use crate::{Decomposed, Program, Subproblem};
use cip_cert::{BoundTree, Rows, SparseRow};
use cip_frac::Frac;
use cip_lin::Bounds;

/// The sum of two bounds; where one block has no point, there is none.
fn sum_of(bound: TreeBound, more: TreeBound) -> Result<TreeBound, LagrangeFault>
    ensures { result ≡ bounds_sum bound more }
{
    let TreeBound::Finite(bound) = bound else {
        return Ok(TreeBound::NoPoint);
    };
    let TreeBound::Finite(more) = more else {
        return Ok(TreeBound::NoPoint);
    };
    match bound.add(more) {
        Ok(sum) => Ok(TreeBound::Finite(sum)),
        Err(_) => Err(LagrangeFault::Wide),
    }
}

/// What a tree shows of a block's points in the box that is set, at the costs that are set.
fn bound_block(
    part: &Subproblem,
    tree: &BoundTree,
    work: &mut BlockScratch,
    row: &mut SparseRow,
) -> Result<TreeBound, TreeFault>
    requires can { CanBound part.now (length row.old.entries) }
    requires fits { FitsBlock part.now work.old }
    ensures steps { result ≡ tree_outcome (asked_of part.now (length row.old.entries) work.old.costs.items) 1 tree.now
        (node_in work.old.region) }
    ensures fits { FitsBlock part.now work.new }
    ensures columns { length row.new.entries ≡ length row.old.entries }
{
    let rows = Rows {
        own: part.rows.as_slice(),
        pool: &[],
        cutoff: &None,
        whole: part.whole.as_slice(),
    };
    bound_at(&rows, work.costs.as_slice(), &mut work.region, 1, tree, row)
}

/// A bound with that of a block added: its tree is checked in its part of a box, at what is left of the costs.
fn add_block(
    blocks: &Decomposed,
    bounds: &Bounds,
    tree: &BoundTree,
    at: usize,
    bound: TreeBound,
    scratch: &mut LagrangeScratch,
) -> Result<TreeBound, LagrangeFault>
    requires inside { at < length blocks.now.subproblems.items }
    requires ready { AreReady (length bounds.now) (length scratch.old.row.entries) blocks.now }
    requires rests { length scratch.old.rests.items ≡ length bounds.now }
    requires fits { AreFitting blocks.now.subproblems.items scratch.old.blocks.items }
    ensures steps { (part : Subproblem) → slice_get blocks.now.subproblems.items at ≡ Some part
        → result ≡ block_added at (block_outcome (length scratch.old.row.entries) (part_at blocks.now.blocks at).columns
        part scratch.old.rests.items bounds.now tree.now) bound }
    ensures rests { scratch.new.rests.items ≡ scratch.old.rests.items }
    ensures fits { AreFitting blocks.now.subproblems.items scratch.new.blocks.items }
    ensures row { length scratch.new.row.entries ≡ length scratch.old.row.entries }
{
    let part = &blocks.subproblems[at];
    let numbers = blocks.blocks.columns(at);
    let work = &mut scratch.blocks[at];
    work.fill(scratch.rests.as_slice(), bounds, numbers);
    match bound_block(part, tree, work, &mut scratch.row) {
        Ok(more) => sum_of(bound, more),
        Err(fault) => Err(LagrangeFault::Tree {
            block: at as u32,
            fault,
        }),
    }
}

/// A sum with the bounds of all blocks added, one after another.
fn add_blocks(
    blocks: &Decomposed,
    bounds: &Bounds,
    trees: &[BoundTree],
    start: Frac,
    scratch: &mut LagrangeScratch,
) -> Result<TreeBound, LagrangeFault>
    requires each { length trees.now ≡ length blocks.now.subproblems.items }
    requires ready { AreReady (length bounds.now) (length scratch.old.row.entries) blocks.now }
    requires rests { length scratch.old.rests.items ≡ length bounds.now }
    requires fits { AreFitting blocks.now.subproblems.items scratch.old.blocks.items }
    ensures steps { result ≡ blocks_added (length scratch.old.row.entries) blocks.now.blocks scratch.old.rests.items
        bounds.now 0 blocks.now.subproblems.items trees.now (TreeBound.Finite start) }
    ensures rests { scratch.new.rests.items ≡ scratch.old.rests.items }
    ensures fits { AreFitting blocks.now.subproblems.items scratch.new.blocks.items }
    ensures row { length scratch.new.row.entries ≡ length scratch.old.row.entries }
{
    let mut bound = TreeBound::Finite(start);
    for at in 0..blocks.subproblems.len() {
        match add_block(blocks, bounds, &trees[at], at, bound, scratch) {
            Ok(more) => bound = more,
            Err(fault) => return Err(fault),
        }
    }
    Ok(bound)
}

/// Sets the rests to the costs, and uses the multipliers of the rows with these numbers.
fn reduce(
    program: &Program,
    numbers: &[u32],
    multipliers: &[Frac],
    scratch: &mut LagrangeScratch,
) -> Result<Frac, LagrangeFault>
    requires numbers { All (λ number. number < length program.now.rows) numbers.now }
    requires each { length multipliers.now ≡ length numbers.now }
    requires rests { length scratch.old.rests.items ≡ columns program.now }
    ensures steps { MatchResult result
        (λ total. multipliers_used program.now.rows numbers.now multipliers.now (start_of program.now)
        ≡ Ok (record { total = total; rests = scratch.new.rests.items }))
        (λ fault. multipliers_used program.now.rows numbers.now multipliers.now (start_of program.now) ≡ Err fault) }
    ensures rests { length scratch.new.rests.items ≡ columns program.now }
    ensures blocks { scratch.new.blocks.items ≡ scratch.old.blocks.items }
    ensures row { scratch.new.row ≡ scratch.old.row }
{
    let rests = scratch.rests.as_mut_slice();
    rests.copy_from_slice(program.costs());
    use_multipliers(
        rests,
        program.constant(),
        program.rows(),
        numbers,
        multipliers,
    )
}

/// A sum with the least rests on the columns of no block and the bounds of all blocks added.
fn add_rests(
    blocks: &Decomposed,
    bounds: &Bounds,
    trees: &[BoundTree],
    start: Frac,
    scratch: &mut LagrangeScratch,
) -> Result<TreeBound, LagrangeFault>
    requires free { All (λ number. number < length scratch.old.rests.items) blocks.now.blocks.free_columns }
    requires each { length trees.now ≡ length blocks.now.subproblems.items }
    requires ready { AreReady (length bounds.now) (length scratch.old.row.entries) blocks.now }
    requires rests { length scratch.old.rests.items ≡ length bounds.now }
    requires fits { AreFitting blocks.now.subproblems.items scratch.old.blocks.items }
    ensures steps { result ≡ rests_added (length scratch.old.row.entries) blocks.now bounds.now trees.now
        (record { total = start; rests = scratch.old.rests.items }) }
    ensures rests { scratch.new.rests.items ≡ scratch.old.rests.items }
    ensures fits { AreFitting blocks.now.subproblems.items scratch.new.blocks.items }
    ensures row { length scratch.new.row.entries ≡ length scratch.old.row.entries }
{
    let numbers = blocks.blocks.free_columns();
    match add_free(scratch.rests.as_slice(), bounds, numbers, start) {
        Ok(sum) => add_blocks(blocks, bounds, trees, sum, scratch),
        Err(fault) => Err(fault),
    }
}

/// What multipliers of the master rows, with a tree for each block, show of the points of a program in a box: the
/// constant, each multiplier that isn't 0 times the side of its row that it uses (the low one above 0, the high one
/// below 0), the least of what is left of the costs on the columns of no block, and the bound of each block's tree at
/// what is left; or that there is no point, where a tree says so. No feasible point in the box costs less. A fault is
/// the first in that order. It takes no memory; the scratch was made for the program and its blocks.
pub fn lagrange(
    program: &Program,
    blocks: &Decomposed,
    bounds: &Bounds,
    multipliers: &[Frac],
    trees: &[BoundTree],
    scratch: &mut LagrangeScratch,
) -> Result<TreeBound, LagrangeFault>
    requires made { IsDecompositionOf program.now blocks.now }
    requires room { FitsScratch program.now blocks.now scratch.old }
    requires box_ { length bounds.now ≡ columns program.now }
    requires multipliers { length multipliers.now ≡ length blocks.now.blocks.master_rows }
    requires trees { length trees.now ≡ length blocks.now.subproblems.items }
    ensures steps { result ≡ lagrange_outcome (length scratch.old.row.entries) program.now blocks.now bounds.now
        multipliers.now trees.now }
    ensures follows { IfOk result (LagrangeFollows program.now bounds.now) }
    ensures room { FitsScratch program.now blocks.now scratch.new }
{
    let _columns = program.columns();
    let numbers = blocks.blocks.master_rows();
    match reduce(program, numbers, multipliers, scratch) {
        Ok(total) => add_rests(blocks, bounds, trees, total, scratch),
        Err(fault) => Err(fault),
    }
}
