//! Points that a pricer brought, offered to a pool.
ghost use Rattle.std.specs.Prelude.{◌≡◌, ◌≢◌, true, false, ◌<◌, [], ◌∷◌, length, IfOk, MatchResult};
ghost use Rattle.cip_columns.specs.ColumnPools.{most_points};
ghost use Rattle.cip_master.specs.MasterTasks.{IsTask};
ghost use Rattle.cip_price.specs.PriceTasks.{task_at};
ghost use Rattle.cip_price.specs.Asks.{Tells, MayTell, MayTellTo};
ghost use Rattle.cip_price.specs.OfferedPoints.{Grows, IsOffered, growth_of, joint, drop_of, drops_from};

use crate::asker::AskPricer;
use crate::tasks::PriceTask;
use cip_cert::BlockPoint;
use cip_columns::{Added, ColumnPool};
use cip_master::{Taken, take_point};
use std::alloc::AllocError;

/// What became of a pool as points were offered.
#[derive(Clone, Copy)]
pub enum Growth {
    /// It is as it was, and each point of the block was held.
    Same,
    /// It has grown, and each point of the block is held.
    Grown,
    /// It is full, and a point of the block isn't held.
    Full,
}

/// One growth behind another.
pub(crate) fn joint(growth: Growth, next: Growth) -> Growth
    ensures { result ≡ joint growth next }
{
    match growth {
        Growth::Same => next,
        Growth::Grown => match next {
            Growth::Full => Growth::Full,
            _ => Growth::Grown,
        },
        Growth::Full => Growth::Full,
    }
}

/// Whether the pool is full.
pub(crate) fn is_full(growth: Growth) -> bool
    ensures full { result ≡ true → growth ≡ Growth.Full }
    ensures going { result ≡ false → growth ≢ Growth.Full }
{
    match growth {
        Growth::Full => true,
        Growth::Same => false,
        Growth::Grown => false,
    }
}

/// What became of a pool, by what adding a point came to.
fn growth_of(added: Added) -> Growth
    ensures { result ≡ growth_of added }
{
    match added {
        Added::New(_) => Growth::Grown,
        Added::Known(_) => Growth::Same,
        Added::Full => Growth::Full,
    }
}

/// Offers the point at a place of an answer for a block. Where it is dropped, who answered is told so.
fn offer<A: AskPricer>(
    task: &PriceTask<'_>,
    pool: &mut ColumnPool,
    asker: &mut A,
    block: u32,
    place: usize,
    point: &BlockPoint,
) -> Result<Growth, AllocError>
    requires task { IsTask (task_at task.now pool.old) }
    requires block { block < length task.now.blocks.now.subproblems.items }
    ensures offered { IfOk result
        (IsOffered (task_at task.entry.now []) block (point.now ∷ []) pool.old pool.new) }
    ensures tells { MatchResult result
        (λ _. Tells (A.told asker.old) (drop_of (task_at task.entry.now []) block place point.now) (A.told asker.new))
        (λ _. MayTell (A.told asker.old) [] (A.told asker.new)) }
    ensures full { length pool.old ≡ most_points → pool.new ≡ pool.old }
    ensures grows { Grows pool.old pool.new }
    ensures task { IsTask (task_at task.entry.now pool.new) }
{
    let taken = take_point(pool, task.program, task.blocks, block, point)?;
    match taken {
        Taken::Offered(added) => Ok(growth_of(added)),
        Taken::Dropped(verdict) => {
            asker.dropped(block, place, verdict)?;
            Ok(Growth::Same)
        }
    }
}

/// Offers the points of an answer for a block, one after another. Who answered is told of each that is dropped.
pub(crate) fn offer_points<A: AskPricer>(
    task: &PriceTask<'_>,
    pool: &mut ColumnPool,
    asker: &mut A,
    block: u32,
    points: &[BlockPoint],
) -> Result<Growth, AllocError>
    requires task { IsTask (task_at task.now pool.old) }
    requires block { block < length task.now.blocks.now.subproblems.items }
    ensures offered { IfOk result
        (IsOffered (task_at task.entry.now []) block points.now pool.old pool.new) }
    ensures tells { MatchResult result
        (λ _. Tells (A.told asker.old) (drops_from (task_at task.entry.now []) block 0 points.now) (A.told asker.new))
        (λ _. MayTellTo [] (drops_from (task_at task.entry.now []) block 0 points.now) (A.told asker.old)
        (A.told asker.new)) }
    ensures grows { Grows pool.old pool.new }
    ensures task { IsTask (task_at task.entry.now pool.new) }
{
    let mut growth = Growth::Same;
    for at in 0..points.len() {
        let next = offer(task, pool, asker, block, at, &points[at])?;
        growth = joint(growth, next);
    }
    Ok(growth)
}
