//! A round: each block is asked.
ghost use Rattle.std.specs.Prelude.{◌≡◌, ◌<◌, ◌||◌, false, [], None, length, IfOk, OnOk, IfSome, IsSome, MatchResult};
ghost use Rattle.cip_problem.specs.WellFormed.{columns};
ghost use Rattle.cip_master.specs.MasterTasks.{IsTask};
ghost use Rattle.cip_price.specs.PriceTasks.{task_at};
ghost use Rattle.cip_price.specs.OfferedPoints.{Grows, joint};
ghost use Rattle.cip_price.specs.BlockAsks.{closes, bound_in, costs_in, AnswersBlock, MayAnswer};
ghost use Rattle.cip_price.specs.PriceRounds.{is_empty_bound, first_gap, IsTreePut, IsBlockPut, IsRound, MayRound};

use crate::asker::AskPricer;
use crate::asks::BlockAsk;
use crate::block_answers::{Accepted, BlockAnswer};
use crate::offering::{Growth, is_full, joint};
use crate::tasks::PriceTask;
use cip_cert::{BoundTree, Scratch};
use cip_columns::ColumnPool;
use cip_frac::Frac;
use cip_lagrange::TreeBound;
use cip_master::Shown;
use std::alloc::{AllocError, Global};

/// What came of a round.
#[derive(Drop)]
pub struct Round {
    /// What became of the pool. Where it is full, the round ended there.
    pub growth: Growth,
    /// The first block that nothing closes: its tree, if it has one, shows a bound below its price.
    pub gap: Option<u32>,
    /// Whether a tree shows that its block has no point.
    pub is_empty: bool,
    /// The trees of all blocks, if the check accepted one of each.
    pub trees: Option<Vec<BoundTree>>,
}

/// Whether what is shown of a block closes it at its price.
fn closes(price: Frac, shown: &Option<TreeBound>) -> bool
    ensures { result ≡ closes price shown.now }
{
    let Some(bound) = shown else {
        return false;
    };
    match bound {
        TreeBound::Finite(bound) => price <= *bound,
        TreeBound::NoPoint => true,
    }
}

/// Whether a tree shows that its block has no point.
fn is_empty_bound(shown: &Option<TreeBound>) -> bool
    ensures { result ≡ is_empty_bound shown.now }
{
    let Some(bound) = shown else {
        return false;
    };
    match bound {
        TreeBound::Finite(_) => false,
        TreeBound::NoPoint => true,
    }
}

/// What is shown of a block.
fn bound_in(accepted: &Option<Accepted>) -> Option<TreeBound>
    ensures { result ≡ bound_in accepted.now }
{
    match accepted {
        Some(accepted) => Some(accepted.bound),
        None => None,
    }
}

/// The first of two blocks that nothing closes: one of before, or this one, if nothing closes it.
fn first_gap(before: Option<u32>, block: u32, is_closed: bool) -> Option<u32>
    ensures { result ≡ first_gap before block is_closed }
{
    if before.is_some() || is_closed {
        return before;
    }
    Some(block)
}

/// Whether one of two is so.
fn either(first: bool, second: bool) -> bool
    ensures { result ≡ (first || second) }
{
    first || second
}

/// Puts the tree of a block behind those of the blocks before it.
fn put_tree(
    trees: Option<Vec<BoundTree>>,
    accepted: Option<Accepted>,
) -> Result<Option<Vec<BoundTree>>, AllocError>
    ensures { IfOk result (IsTreePut trees accepted) }
{
    let Some(mut trees) = trees else {
        drop(accepted);
        return Ok(None);
    };
    let Some(accepted) = accepted else {
        return Ok(None);
    };
    trees.push(accepted.tree)?;
    Ok(Some(trees))
}

impl Round {
    /// Before a block is asked.
    fn new(alloc: Global) -> Round
        ensures growth { result.growth ≡ Growth.Same }
        ensures gap { result.gap ≡ None }
        ensures none { result.is_empty ≡ false }
        ensures trees { IfSome result.trees (λ trees. trees.items ≡ []) × IsSome result.trees }
    {
        Round {
            growth: Growth::Same,
            gap: None,
            is_empty: false,
            trees: Some(Vec::new(alloc)),
        }
    }

    /// Puts what came of the next block's answer.
    fn put(&mut self, block: u32, price: Frac, found: BlockAnswer) -> Result<(), AllocError>
        ensures growth { OnOk result (self.new.growth ≡ joint self.old.growth found.growth) }
        ensures gap { OnOk result (self.new.gap
            ≡ first_gap self.old.gap block (closes price (bound_in found.accepted))) }
        ensures none { OnOk result (self.new.is_empty
            ≡ (self.old.is_empty || is_empty_bound (bound_in found.accepted))) }
        ensures trees { OnOk result (IsTreePut self.old.trees found.accepted self.new.trees) }
    {
        let BlockAnswer { growth, accepted } = found;
        let bound = bound_in(&accepted);
        self.growth = joint(self.growth, growth);
        self.gap = first_gap(self.gap, block, closes(price, &bound));
        self.is_empty = either(self.is_empty, is_empty_bound(&bound));
        self.trees = put_tree(self.trees.take(), accepted)?;
        Ok(())
    }
}

/// What the blocks of a round are asked with.
#[derive(Clone, Copy)]
struct RoundAsk<'a> {
    alloc: Global,
    task: &'a PriceTask<'a>,
    shown: &'a Shown,
}

impl RoundAsk<'_> {
    /// Asks a block, as `BlockAsk::ask` does.
    fn block_answer<A: AskPricer>(
        &self,
        pool: &mut ColumnPool,
        asker: &mut A,
        scratch: &mut Scratch,
        block: u32,
    ) -> Result<BlockAnswer, AllocError>
        requires task { IsTask (task_at self.now.task.now pool.old) }
        requires rests { length self.now.shown.now.rests.items ≡ columns self.now.task.now.program.now }
        requires block { block < length self.now.task.now.blocks.now.subproblems.items }
        requires room { length scratch.old.row.entries ≡ columns self.now.task.now.program.now }
        ensures asked { let task = task_at self.entry.now.task.now [] in
            let costs = costs_in task self.entry.now.shown.now.rests.items block in
            MatchResult result
            (AnswersBlock task costs block (A.told asker.old) (A.told asker.new) pool.old pool.new)
            (λ _. MayAnswer task costs block (A.told asker.old) (A.told asker.new)) }
        ensures grows { Grows pool.old pool.new }
        ensures task { IsTask (task_at self.entry.now.task.now pool.new) }
        ensures room { length scratch.new.row.entries ≡ length scratch.old.row.entries }
    {
        let mut ask = BlockAsk::new(self.alloc, self.task, self.shown.rests.as_slice(), block)?;
        let answer = ask.ask(self.alloc, self.task, pool, asker, scratch);
        drop(ask);
        answer
    }

    /// Asks the next block, and puts what comes of its answer.
    fn ask_next<A: AskPricer>(
        &self,
        pool: &mut ColumnPool,
        asker: &mut A,
        scratch: &mut Scratch,
        block: u32,
        round: &mut Round,
    ) -> Result<(), AllocError>
        requires task { IsTask (task_at self.now.task.now pool.old) }
        requires rests { length self.now.shown.now.rests.items ≡ columns self.now.task.now.program.now }
        requires prices { length self.now.shown.now.prices.items
            ≡ length self.now.task.now.blocks.now.subproblems.items }
        requires block { block < length self.now.task.now.blocks.now.subproblems.items }
        requires room { length scratch.old.row.entries ≡ columns self.now.task.now.program.now }
        ensures put { let task = task_at self.entry.now.task.now [] in
            let shown = self.entry.now.shown.now in
            MatchResult result
            (λ _. IsBlockPut task shown.rests.items shown.prices.items block (A.told asker.old) (A.told asker.new)
            pool.old pool.new round.old round.new)
            (λ _. MayAnswer task (costs_in task shown.rests.items block) block (A.told asker.old) (A.told asker.new)) }
        ensures grows { Grows pool.old pool.new }
        ensures task { IsTask (task_at self.entry.now.task.now pool.new) }
        ensures room { length scratch.new.row.entries ≡ length scratch.old.row.entries }
    {
        let found = self.block_answer(pool, asker, scratch, block)?;
        round.put(block, self.shown.prices[block as usize], found)
    }
}

/// Asks each block in order for points and a tree, at what multipliers leave of the costs: points of the block are put
/// into the pool, the others are dropped, of each of which who answered is told right behind the ask; a tree counts
/// where its check accepts it. A round ends behind the answer for which the pool hasn't room. `Err` comes where memory
/// was refused; what was accepted before it stands.
pub fn ask_blocks<A: AskPricer>(
    alloc: Global,
    task: &PriceTask<'_>,
    pool: &mut ColumnPool,
    asker: &mut A,
    shown: &Shown,
    scratch: &mut Scratch,
) -> Result<Round, AllocError>
    requires task { IsTask (task_at task.now pool.old) }
    requires rests { length shown.now.rests.items ≡ columns task.now.program.now }
    requires prices { length shown.now.prices.items ≡ length task.now.blocks.now.subproblems.items }
    requires room { length scratch.old.row.entries ≡ columns task.now.program.now }
    ensures round { MatchResult result
        (IsRound (task_at task.entry.now []) shown.now.rests.items shown.now.prices.items (A.told asker.old)
        (A.told asker.new) pool.old pool.new)
        (λ _. MayRound (task_at task.entry.now []) shown.now.rests.items (A.told asker.old) (A.told asker.new)) }
    ensures grows { Grows pool.old pool.new }
    ensures task { IsTask (task_at task.entry.now pool.new) }
    ensures room { length scratch.new.row.entries ≡ length scratch.old.row.entries }
{
    let _blocks = task.program.columns();
    let asks = RoundAsk { alloc, task, shown };
    let mut round = Round::new(alloc);
    for at in 0..task.blocks.subproblems.len() {
        match asks.ask_next(pool, asker, scratch, at as u32, &mut round) {
            Ok(()) => (),
            Err(error) => {
                drop(round);
                return Err(error);
            }
        }
        if is_full(round.growth) {
            return Ok(round);
        }
    }
    Ok(round)
}
