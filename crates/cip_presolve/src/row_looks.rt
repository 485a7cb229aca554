//! What looking at one row, or at two with equal terms, comes to.
ghost use Rattle.std.specs.Prelude.{IfOk, length, ◌<◌, ◌≡◌};
ghost use Rattle.cip_search.specs.NarrowedPrograms.{IsExactStep};
ghost use Rattle.cip_presolve.specs.RoundEnds.{RoundEndsRightly};
ghost use Rattle.cip_presolve.specs.declared.row_looks.RoundEnd.TheVariants.{Open};

use crate::drafts::Draft;
use crate::extents::extent;
use crate::left_rows::says_nothing;
use crate::open::open_places;
use crate::queues::Work;
use crate::rules::Outcome;
use crate::taking::try_implied;
use crate::try_merge;
use std::alloc::{AllocError, Global};

/// A row or a column at which no point is feasible.
#[derive(Clone, Copy)]
pub enum Place {
    /// The row of this number, from 0.
    Row(u32),
    /// The column of this number, from 0.
    Column(u32),
}

/// What looking at rows and columns comes to.
#[derive(Clone, Copy)]
pub enum RoundEnd {
    /// Some points may be feasible.
    Open,
    /// No point is feasible, as this row or column shows.
    NoPoint { place: Place },
}

/// That all is open once the work was told of a step.
pub(crate) fn open_after(told: Result<(), AllocError>) -> Result<RoundEnd, AllocError>
    ensures { IfOk result (λ end. end ≡ Open) }
{
    match told {
        Ok(()) => Ok(RoundEnd::Open),
        Err(error) => Err(error),
    }
}

/// Tells the work of a step, if one was taken. `Err` comes where a growth was refused.
pub(crate) fn tell(work: &mut Work, outcome: Outcome) -> Result<(), AllocError> {
    match outcome {
        Outcome::Tightened(column) => work.column_changed(column),
        Outcome::Gone => {
            work.count_step();
            Ok(())
        }
        _ => Ok(()),
    }
}

/// Takes the sides that a row implies for its columns. `Err` comes where a growth was refused.
#[tactic(auto, using(crate::proofs::Chained::chains))]
fn imply(
    alloc: Global,
    draft: &mut Draft,
    row: u32,
    work: &mut Work,
) -> Result<RoundEnd, AllocError>
    requires { row < length draft.old.rows }
    ensures step { IsExactStep draft.old draft.new }
    ensures end { IfOk result (RoundEndsRightly draft.new) }
    ensures rows { length draft.new.rows ≡ length draft.old.rows }
{
    let extent = extent(draft.row(row as usize), draft.bounds());
    let open = open_places(draft, row as usize);
    let count = draft.row(row as usize).terms().len();
    for at in 0..count {
        match try_implied(alloc, draft, row as usize, at, extent, open.has(at)) {
            Ok(Outcome::NoPoint) => {
                return Ok(RoundEnd::NoPoint {
                    place: Place::Row(row),
                });
            }
            Ok(outcome) => tell(work, outcome)?,
            Err(error) => return Err(error),
        }
    }
    Ok(RoundEnd::Open)
}

/// Looks at one row; what its change touches waits from then on. `Err` comes where a growth was refused.
#[tactic(auto, using(crate::proofs::Chained::chains))]
pub(crate) fn look_at(
    alloc: Global,
    draft: &mut Draft,
    row: u32,
    work: &mut Work,
) -> Result<RoundEnd, AllocError>
    ensures step { IsExactStep draft.old draft.new }
    ensures end { IfOk result (RoundEndsRightly draft.new) }
    ensures rows { length draft.new.rows ≡ length draft.old.rows }
{
    let number = row as usize;
    if number >= draft.count() || says_nothing(draft.row(number)) {
        return Ok(RoundEnd::Open);
    }
    match draft.reduce_row(alloc, number) {
        Ok(Outcome::NoPoint) => Ok(RoundEnd::NoPoint {
            place: Place::Row(row),
        }),
        Ok(Outcome::Kept) => imply(alloc, draft, row, work),
        Ok(outcome) => open_after(tell(work, outcome)),
        Err(error) => Err(error),
    }
}

/// Makes one row of those of two keys, where they have equal terms: the second row stays. `Err` comes where a growth
/// was refused.
#[tactic(auto, using(crate::proofs::Chained::chains))]
pub(crate) fn merge_pair(
    alloc: Global,
    draft: &mut Draft,
    first: u128,
    second: u128,
    work: &mut Work,
) -> Result<RoundEnd, AllocError>
    ensures step { IsExactStep draft.old draft.new }
    ensures end { IfOk result (RoundEndsRightly draft.new) }
    ensures rows { length draft.new.rows ≡ length draft.old.rows }
{
    let gone = (first & 0xFFFF_FFFF) as usize;
    let stays = (second & 0xFFFF_FFFF) as u32;
    let alike = first >> 32 == second >> 32;
    if !alike || gone >= draft.count() || stays as usize >= draft.count() {
        return Ok(RoundEnd::Open);
    }
    match try_merge(alloc, draft, stays as usize, gone) {
        Ok(Outcome::NoPoint) => Ok(RoundEnd::NoPoint {
            place: Place::Row(stays),
        }),
        Ok(Outcome::Gone) => open_after(work.row_changed(stays)),
        Ok(_) => Ok(RoundEnd::Open),
        Err(error) => Err(error),
    }
}
