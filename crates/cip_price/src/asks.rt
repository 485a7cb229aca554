//! The ask of one block.
ghost use Rattle.std.specs.Prelude.{◌≡◌, ◌<◌, [], None, Some, length, All, IfOk, MatchResult};
ghost use Rattle.cip_problem.specs.WellFormed.{columns};
ghost use Rattle.cip_lagrange.specs.Decompositions.{IsDecompositionOf};
ghost use Rattle.cip_lagrange.specs.Numbers.{found};
ghost use Rattle.cip_lagrange.specs.TreeOutcomes.{node_in};
ghost use Rattle.cip_master.specs.MasterTasks.{IsTask};
ghost use Rattle.cip_price.specs.PriceTasks.{task_at};
ghost use Rattle.cip_price.specs.Asks.{Tells, MayTellTo};
ghost use Rattle.cip_price.specs.OfferedPoints.{Grows, drops_from};
ghost use Rattle.cip_price.specs.BlockAsks.{costs_in, block_node, IsBlockAsk, shown_by, AcceptsTree, IsBlockAnswer, AnswersBlock, MayAnswer};

use crate::asker::AskPricer;
use crate::block_answers::{Accepted, BlockAnswer};
use crate::offering::{Growth, offer_points};
use crate::tasks::PriceTask;
use cip_cert::{BoundTree, Priced, Rows, Scratch};
use cip_columns::ColumnPool;
use cip_frac::Frac;
use cip_lagrange::{TreeBound, TreeRegion, tree_bound};
use cip_lin::Bounds;
use std::alloc::{AllocError, Global};

/// What stands in a list at these numbers. `Err` where memory was refused.
#[tactic(auto, using(cip_master::proofs::NumberSums::costs_more))]
fn costs_at(alloc: Global, rests: &[Frac], numbers: &[u32]) -> Result<Vec<Frac>, AllocError>
    requires { All (λ number. number < length rests.now) numbers.now }
    ensures { IfOk result (λ costs. costs.items ≡ found rests.now numbers.now) }
{
    let mut costs = Vec::new(alloc);
    for number in numbers {
        costs.push(rests[*number as usize])?;
    }
    Ok(costs)
}

/// The sides of the columns with these numbers. `Err` where memory was refused.
#[tactic(auto, using(cip_master::proofs::NumberSums::sides_more))]
fn sides_at(alloc: Global, bounds: &Bounds, numbers: &[u32]) -> Result<Bounds, AllocError>
    requires { All (λ number. number < length bounds.now) numbers.now }
    ensures { IfOk result (λ kept. kept ≡ found bounds.now numbers.now) }
{
    let mut kept = Bounds::new(alloc, 0)?;
    for number in numbers {
        let Ok(()) = kept.push(bounds.sides(*number)) else {
            drop(kept);
            return Err(AllocError);
        };
    }
    Ok(kept)
}

/// What is left of the costs of a block's columns. `Err` where memory was refused.
fn block_costs(
    alloc: Global,
    task: &PriceTask<'_>,
    rests: &[Frac],
    block: u32,
) -> Result<Vec<Frac>, AllocError>
    requires made { IsDecompositionOf task.now.program.now task.now.blocks.now }
    requires block { block < length task.now.blocks.now.subproblems.items }
    requires rests { length rests.now ≡ columns task.now.program.now }
    ensures { IfOk result (λ costs. costs.items ≡ costs_in (task_at task.entry.now []) rests.now block) }
{
    let _columns = task.program.columns();
    let numbers = task.blocks.blocks.columns(block as usize);
    let costs = costs_at(alloc, rests, numbers)?;
    Ok(costs)
}

/// A block's part of the box, with the program's choices. `Err` where memory was refused.
fn block_region(alloc: Global, task: &PriceTask<'_>, block: u32) -> Result<TreeRegion, AllocError>
    requires made { IsDecompositionOf task.now.program.now task.now.blocks.now }
    requires box_ { length task.now.bounds.now ≡ columns task.now.program.now }
    requires block { block < length task.now.blocks.now.subproblems.items }
    ensures { IfOk result (λ region. node_in region ≡ block_node (task_at task.entry.now []) block) }
{
    let numbers = task.blocks.blocks.columns(block as usize);
    let bounds = sides_at(alloc, task.bounds, numbers)?;
    let part = &task.blocks.subproblems[block as usize];
    let Ok(choices) = part.choices.copied(alloc) else {
        drop(bounds);
        return Err(AllocError);
    };
    Ok(TreeRegion { bounds, choices })
}

/// What a block is asked.
#[derive(Drop)]
pub(crate) struct BlockAsk {
    /// The block.
    pub(crate) block: u32,
    /// What is left of the costs of its columns.
    pub(crate) costs: Vec<Frac>,
    /// Its part of the box, with the program's choices.
    pub(crate) region: TreeRegion,
}

impl BlockAsk {
    /// What a block is asked at what is left of the costs. `Err` where memory was refused.
    pub(crate) fn new(
        alloc: Global,
        task: &PriceTask<'_>,
        rests: &[Frac],
        block: u32,
    ) -> Result<BlockAsk, AllocError>
        requires task { IsTask (task_at task.now []) }
        requires block { block < length task.now.blocks.now.subproblems.items }
        requires rests { length rests.now ≡ columns task.now.program.now }
        ensures ask { IfOk result (IsBlockAsk (task_at task.entry.now [])) }
        ensures block { IfOk result (λ ask. ask.block ≡ block) }
        ensures costs { IfOk result (λ ask. ask.costs.items ≡ costs_in (task_at task.entry.now []) rests.now block) }
    {
        let _columns = task.program.columns();
        let Ok(costs) = block_costs(alloc, task, rests, block) else {
            return Err(AllocError);
        };
        let Ok(region) = block_region(alloc, task, block) else {
            return Err(AllocError);
        };
        Ok(BlockAsk {
            block,
            costs,
            region,
        })
    }

    /// What a tree shows of the block's points, where the check accepts it.
    fn bound_of(
        &mut self,
        task: &PriceTask<'_>,
        tree: &BoundTree,
        scratch: &mut Scratch,
    ) -> Option<TreeBound>
        requires task { IsTask (task_at task.now []) }
        requires ask { IsBlockAsk (task_at task.now []) self.old }
        requires room { length scratch.old.row.entries ≡ columns task.now.program.now }
        ensures bound { result
            ≡ shown_by (task_at task.entry.now []) self.old.costs.items self.old.block (Some tree.now) }
        ensures room { length scratch.new.row.entries ≡ length scratch.old.row.entries }
    {
        let _columns = task.program.columns();
        let part = &task.blocks.subproblems[self.block as usize];
        let rows = Rows {
            own: part.rows.as_slice(),
            pool: &[],
            cutoff: &None,
            whole: part.whole.as_slice(),
        };
        let costs = self.costs.as_slice();
        match tree_bound(&rows, &mut self.region, costs, tree, scratch) {
            Ok(bound) => Some(bound),
            Err(_) => None,
        }
    }

    /// The tree that a pricer brought, if it did and the check accepts it, with what it shows of the block's points.
    fn accept(
        &mut self,
        task: &PriceTask<'_>,
        tree: Option<BoundTree>,
        scratch: &mut Scratch,
    ) -> Option<Accepted>
        requires task { IsTask (task_at task.now []) }
        requires ask { IsBlockAsk (task_at task.now []) self.old }
        requires room { length scratch.old.row.entries ≡ columns task.now.program.now }
        ensures accepted { AcceptsTree (task_at task.entry.now []) self.old.costs.items self.old.block tree result }
        ensures room { length scratch.new.row.entries ≡ length scratch.old.row.entries }
    {
        let Some(tree) = tree else {
            return None;
        };
        match self.bound_of(task, &tree, scratch) {
            Some(bound) => Some(Accepted { tree, bound }),
            None => {
                drop(tree);
                None
            }
        }
    }

    /// What comes of an answer: its points are offered, who answered is told of each that is dropped, and its tree is
    /// checked.
    fn take_answer<A: AskPricer>(
        &mut self,
        task: &PriceTask<'_>,
        pool: &mut ColumnPool,
        asker: &mut A,
        priced: Priced,
        scratch: &mut Scratch,
    ) -> Result<BlockAnswer, AllocError>
        requires task { IsTask (task_at task.now pool.old) }
        requires ask { IsBlockAsk (task_at task.now []) self.old }
        requires room { length scratch.old.row.entries ≡ columns task.now.program.now }
        ensures found { IfOk result (IsBlockAnswer (task_at task.entry.now []) self.old.costs.items self.old.block
            (Some priced) pool.old pool.new) }
        ensures tells { MatchResult result
            (λ _. Tells (A.told asker.old)
            (drops_from (task_at task.entry.now []) self.old.block 0 priced.points.items) (A.told asker.new))
            (λ _. MayTellTo [] (drops_from (task_at task.entry.now []) self.old.block 0 priced.points.items)
            (A.told asker.old) (A.told asker.new)) }
        ensures grows { Grows pool.old pool.new }
        ensures task { IsTask (task_at task.entry.now pool.new) }
        ensures room { length scratch.new.row.entries ≡ length scratch.old.row.entries }
    {
        let Ok(growth) = offer_points(task, pool, asker, self.block, priced.points.as_slice())
        else {
            drop(priced);
            return Err(AllocError);
        };
        let accepted = self.accept(task, priced.tree, scratch);
        Ok(BlockAnswer { growth, accepted })
    }

    /// Asks for points and a tree of the block: the points that are ones of the block are put into the pool, the others
    /// are dropped, and who answered is told so; the tree counts where its check accepts it. `Err` comes where memory
    /// was refused; what was accepted before it stands.
    pub(crate) fn ask<A: AskPricer>(
        &mut self,
        alloc: Global,
        task: &PriceTask<'_>,
        pool: &mut ColumnPool,
        asker: &mut A,
        scratch: &mut Scratch,
    ) -> Result<BlockAnswer, AllocError>
        requires task { IsTask (task_at task.now pool.old) }
        requires ask { IsBlockAsk (task_at task.now []) self.old }
        requires room { length scratch.old.row.entries ≡ columns task.now.program.now }
        ensures asked { MatchResult result
            (AnswersBlock (task_at task.entry.now []) self.old.costs.items self.old.block (A.told asker.old)
            (A.told asker.new) pool.old pool.new)
            (λ _. MayAnswer (task_at task.entry.now []) self.old.costs.items self.old.block (A.told asker.old)
            (A.told asker.new)) }
        ensures grows { Grows pool.old pool.new }
        ensures task { IsTask (task_at task.entry.now pool.new) }
        ensures room { length scratch.new.row.entries ≡ length scratch.old.row.entries }
    {
        let answer = asker.ask(
            alloc,
            self.block,
            self.costs.as_slice(),
            &self.region.bounds,
        )?;
        match answer {
            Some(priced) => self.take_answer(task, pool, asker, priced, scratch),
            None => Ok(BlockAnswer {
                growth: Growth::Same,
                accepted: None,
            }),
        }
    }
}
