//! Of two rows with equal terms one is dropped, and the sides are met.
ghost use Rattle.std.specs.Prelude.{◌≡◌, ◌<◌, length, IfOk};
ghost use Rattle.std.specs.Bool.{OnTrue};
ghost use Rattle.cip_problem.specs.Choices.{met};
ghost use Rattle.cip_search.specs.NarrowedPrograms.{IsExactStep};
ghost use Rattle.cip_presolve.specs.RuleEnds.{EndsRightly};
ghost use Rattle.cip_presolve.specs.RowsMet.{sides_of};

use crate::drafts::Draft;
use crate::row_copies::row_of_terms;
use crate::rules::Outcome;
use cip_lin::{Row, Sides, Term};
use std::alloc::{AllocError, Global};

/// Whether two lists of terms are the same.
#[tactic(auto, using(crate::proofs::Merged::same_terms))]
fn are_same(ones: &[Term], others: &[Term]) -> bool
    ensures { OnTrue result (ones.now ≡ others.now) }
{
    if ones.len() != others.len() {
        return false;
    }
    for at in 0..ones.len() {
        let one = ones[at];
        let other = others[at];
        if one.col == other.col && one.coef == other.coef {
            continue;
        }
        return false;
    }
    true
}

/// What lies between the sides of both rows.
fn met_sides(one: &Row, other: &Row) -> Sides
    ensures { result ≡ met (sides_of one.now) (sides_of other.now) }
{
    let own = Sides {
        low: one.low(),
        high: one.high(),
    };
    own.met(Sides {
        low: other.low(),
        high: other.high(),
    })
}

/// Of two rows with equal terms meets the sides, and drops the second; `NoPoint` where the low side then passes the
/// high one. `Err` comes where a growth was refused.
#[tactic(auto, using(crate::proofs::Merged::merging))]
pub fn try_merge(
    alloc: Global,
    draft: &mut Draft,
    first: usize,
    second: usize,
) -> Result<Outcome, AllocError>
    requires first { first < length draft.old.rows }
    requires second { second < length draft.old.rows }
    ensures step { IsExactStep draft.old draft.new }
    ensures end { IfOk result (EndsRightly draft.new) }
    ensures rows { length draft.new.rows ≡ length draft.old.rows }
{
    if first == second || !are_same(draft.row(first).terms(), draft.row(second).terms()) {
        return Ok(Outcome::Kept);
    }
    let sides = met_sides(draft.row(first), draft.row(second));
    if sides.cross() {
        return Ok(Outcome::NoPoint);
    }
    let row = row_of_terms(alloc, draft.row(first).terms(), sides.low, sides.high)?;
    draft.set_row(first, row);
    draft.set_row(second, Row::empty(alloc, None, None));
    Ok(Outcome::Gone)
}
