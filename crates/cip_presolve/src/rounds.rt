//! Steps are taken until none applies.
ghost use Rattle.std.specs.Prelude.{IfOk, length, ◌<◌, ◌≤◌, ◌≡◌};
ghost use Rattle.cip_problem.specs.Limits.{most_rows};
ghost use Rattle.cip_search.specs.NarrowedPrograms.{IsStep, IsExactStep};
ghost use Rattle.cip_presolve.specs.RoundEnds.{RoundEndsRightly};

use crate::drafts::Draft;
use crate::keys::sorted_keys;
use crate::leaving::forms_out;
use crate::queues::Work;
use crate::row_looks::{Place, RoundEnd, look_at, merge_pair, open_after};
use crate::rules::Outcome;
use crate::substituting::substitute_all;
use crate::try_moves;
use std::alloc::{AllocError, Global};

/// The most looks at rows between two rounds over all rows or columns: each step lets no more rows wait than there are.
const MOST_LOOKS: u64 = 1_000_001 << 16;

/// The most rounds over all rows or columns: a step is taken in each but the last.
const MOST_ROUNDS: u32 = 1_000_001;

/// Looks at the rows that wait until none does. `Err` comes where a growth was refused.
#[tactic(auto, using(crate::proofs::Chained::chains))]
fn look_at_all(alloc: Global, draft: &mut Draft, work: &mut Work) -> Result<RoundEnd, AllocError>
    ensures step { IsExactStep draft.old draft.new }
    ensures end { IfOk result (RoundEndsRightly draft.new) }
    ensures rows { length draft.new.rows ≡ length draft.old.rows }
{
    for _ in 0..MOST_LOOKS {
        let Some(row) = work.next() else {
            return Ok(RoundEnd::Open);
        };
        match look_at(alloc, draft, row, work) {
            Ok(RoundEnd::Open) => {}
            end => return end,
        }
    }
    Ok(RoundEnd::Open)
}

/// Makes one row of each two with equal terms. `Err` comes where a growth was refused.
#[tactic(auto, using(crate::proofs::Chained::chains))]
fn merge_rows(alloc: Global, draft: &mut Draft, work: &mut Work) -> Result<RoundEnd, AllocError>
    requires { length draft.old.rows ≤ most_rows }
    ensures step { IsExactStep draft.old draft.new }
    ensures end { IfOk result (RoundEndsRightly draft.new) }
    ensures rows { length draft.new.rows ≡ length draft.old.rows }
{
    let Ok(keys) = sorted_keys(alloc, draft.rows()) else {
        return Err(AllocError);
    };
    for at in 1..keys.len() {
        match merge_pair(alloc, draft, keys[at - 1], keys[at], work) {
            Ok(RoundEnd::Open) => {}
            end => return end,
        }
    }
    Ok(RoundEnd::Open)
}

/// Moves the costs of the columns with equal sides to the constant.
#[tactic(auto, using(crate::proofs::Chained::chains))]
fn settle_columns(draft: &mut Draft) -> RoundEnd
    ensures step { IsExactStep draft.old draft.new }
    ensures end { RoundEndsRightly draft.new result }
    ensures rows { length draft.new.rows ≡ length draft.old.rows }
{
    for column in 0..draft.bounds().len() {
        let number = column as u32;
        match draft.try_fixed(number) {
            Outcome::NoPoint => {
                return RoundEnd::NoPoint {
                    place: Place::Column(number),
                };
            }
            _ => {}
        }
    }
    RoundEnd::Open
}

/// Takes the exact steps until none applies. `Err` comes where a growth was refused.
#[tactic(auto, using(crate::proofs::Chained::chains))]
pub(crate) fn settle(
    alloc: Global,
    draft: &mut Draft,
    work: &mut Work,
) -> Result<RoundEnd, AllocError>
    requires { length draft.old.rows ≤ most_rows }
    ensures step { IsExactStep draft.old draft.new }
    ensures end { IfOk result (RoundEndsRightly draft.new) }
    ensures rows { length draft.new.rows ≡ length draft.old.rows }
{
    for _ in 0..MOST_ROUNDS {
        match look_at_all(alloc, draft, work) {
            Ok(RoundEnd::Open) => {}
            end => return end,
        }
        match merge_rows(alloc, draft, work) {
            Ok(RoundEnd::Open) => {}
            end => return end,
        }
        if work.is_done() {
            return Ok(settle_columns(draft));
        }
    }
    Ok(settle_columns(draft))
}

/// Moves the columns that no row keeps from rising, or from falling, to where they cost least, with those that follow
/// them; their rows wait from then on. `Err` comes where a growth was refused.
#[tactic(auto, using(crate::proofs::Chained::dual_chains))]
fn move_columns(
    alloc: Global,
    draft: &mut Draft,
    rising: bool,
    work: &mut Work,
) -> Result<(), AllocError>
    ensures step { IsStep draft.old draft.new }
    ensures rows { draft.new.rows ≡ draft.old.rows }
{
    let Ok(forms) = forms_out(alloc, draft, true) else {
        return Err(AllocError);
    };
    try_moves(alloc, draft, forms.as_slice(), rising, work)
}

/// Takes the exact steps until none applies, substitutes columns by equalities of two terms, and then moves columns
/// that no row holds: those that may fall, and then those that may rise. `Err` comes where a growth was refused.
#[tactic(auto, using(crate::proofs::Chained::dual_chains))]
fn take_round(alloc: Global, draft: &mut Draft, work: &mut Work) -> Result<RoundEnd, AllocError>
    requires { length draft.old.rows ≤ most_rows }
    ensures step { IsStep draft.old draft.new }
    ensures end { IfOk result (RoundEndsRightly draft.new) }
    ensures rows { length draft.new.rows ≡ length draft.old.rows }
{
    match settle(alloc, draft, work) {
        Ok(RoundEnd::Open) => {}
        end => return end,
    }
    match substitute_all(alloc, draft, work) {
        Ok(RoundEnd::Open) => {}
        end => return end,
    }
    move_columns(alloc, draft, false, work)?;
    open_after(move_columns(alloc, draft, true, work))
}

/// Takes rounds of all steps until none applies. `Err` comes where a growth was refused.
#[tactic(auto, using(crate::proofs::Chained::dual_chains))]
pub(crate) fn take_rounds(
    alloc: Global,
    draft: &mut Draft,
    work: &mut Work,
) -> Result<RoundEnd, AllocError>
    requires { length draft.old.rows ≤ most_rows }
    ensures step { IsStep draft.old draft.new }
    ensures end { IfOk result (RoundEndsRightly draft.new) }
    ensures rows { length draft.new.rows ≡ length draft.old.rows }
{
    for _ in 0..MOST_ROUNDS {
        match take_round(alloc, draft, work) {
            Ok(RoundEnd::Open) => {}
            end => return end,
        }
        if work.is_done() {
            return Ok(settle_columns(draft));
        }
    }
    Ok(settle_columns(draft))
}
