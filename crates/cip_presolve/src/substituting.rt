//! Columns are substituted by the forms that equalities of two terms give them, each row once.
ghost use Rattle.std.specs.Prelude.{IfOk, IfSome, length, ◌<◌, ◌≤◌, ◌≡◌};
ghost use Rattle.cip_problem.specs.Limits.{most_rows};
ghost use Rattle.cip_search.specs.NarrowedPrograms.{IsExactStep};
ghost use Rattle.cip_presolve.specs.RoundEnds.{RoundEndsRightly};
ghost use Rattle.cip_presolve.specs.Substitutions.{IsFound};

use crate::drafts::Draft;
use crate::forms::{ColumnForm, form_at, is_substitute};
use crate::queues::Work;
use crate::row_looks::{Place, RoundEnd, open_after, tell};
use crate::row_steps::{move_cost, take_sides, try_replace};
use crate::rules::Outcome;
use std::alloc::{AllocError, Global};

/// A column, and the form that a row gives it.
#[derive(Clone, Copy)]
struct Substitution {
    row: u32,
    column: u32,
    form: ColumnForm,
}

/// The substitution of a column by a row: the column is continuous, or it and the source are whole, and so are constant
/// and factor; `None` where the row gives it no form, or it isn't substituted.
#[tactic(auto, using(crate::proofs::Substituted::finding))]
fn found_for(draft: &Draft, row: u32, column: u32) -> Option<Substitution>
    requires { row < length draft.now.rows }
    ensures { IfSome result (IsFound draft.now) }
{
    let Some(form) = form_at(draft, row as usize, column) else {
        return None;
    };
    if !is_substitute(draft, column, &form) {
        return None;
    }
    if draft.is_whole(column)
        && !(draft.is_whole(form.source) && form.constant.is_whole() && form.factor.is_whole())
    {
        return None;
    }
    Some(Substitution { row, column, form })
}

/// The substitution by a row: of the column that stands in fewer rows, or else of the other one; `None` where it gives
/// neither.
fn found_by(draft: &Draft, row: u32, work: &Work) -> Option<Substitution>
    requires { row < length draft.now.rows }
    ensures { IfSome result (IsFound draft.now) }
{
    let [first, second] = draft.row(row as usize).terms() else {
        return None;
    };
    let mut own = first.col;
    let mut other = second.col;
    if work.count_of(other) < work.count_of(own) {
        own = second.col;
        other = first.col;
    }
    match found_for(draft, row, own) {
        None => found_for(draft, row, other),
        found => found,
    }
}

/// Substitutes a column in the rows that have it, each of which waits from then on if that changes it, and in the cost,
/// and takes the sides of its source by which the column keeps its own. `Err` comes where a growth was refused.
#[tactic(auto, using(crate::proofs::Substituted::taking))]
fn substitute(
    alloc: Global,
    draft: &mut Draft,
    found: &Substitution,
    work: &mut Work,
) -> Result<RoundEnd, AllocError>
    requires { IsFound draft.old found.now }
    ensures step { IsExactStep draft.old draft.new }
    ensures end { IfOk result (RoundEndsRightly draft.new) }
    ensures rows { length draft.new.rows ≡ length draft.old.rows }
{
    let place = found.row as usize;
    for at in 0..work.count_of(found.column) {
        let Some(number) = work.row_of(found.column, at) else {
            continue;
        };
        let row = number as usize;
        if row >= draft.count() {
            continue;
        }
        if try_replace(alloc, draft, row, place, found.column, &found.form)? {
            work.row_moved(number, found.form.source)?;
        }
    }
    if move_cost(draft, place, found.column, &found.form) {
        work.count_step();
    }
    match take_sides(draft, place, found.column, &found.form) {
        Outcome::NoPoint => Ok(RoundEnd::NoPoint {
            place: Place::Row(found.row),
        }),
        outcome => open_after(tell(work, outcome)),
    }
}

/// Substitutes columns by all rows that give one its form and weren't used before. `Err` comes where a growth was
/// refused.
#[tactic(auto, using(crate::proofs::Chained::chains))]
pub(crate) fn substitute_all(
    alloc: Global,
    draft: &mut Draft,
    work: &mut Work,
) -> Result<RoundEnd, AllocError>
    requires { length draft.old.rows ≤ most_rows }
    ensures step { IsExactStep draft.old draft.new }
    ensures end { IfOk result (RoundEndsRightly draft.new) }
    ensures rows { length draft.new.rows ≡ length draft.old.rows }
{
    for row in 0..draft.count() {
        let row = row as u32;
        if work.is_used(row) {
            continue;
        }
        let Some(found) = found_by(draft, row, work) else {
            continue;
        };
        work.mark_used(row);
        match substitute(alloc, draft, &found, work) {
            Ok(RoundEnd::Open) => {}
            end => return end,
        }
    }
    Ok(RoundEnd::Open)
}
