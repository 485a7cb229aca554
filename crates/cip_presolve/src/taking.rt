//! The step of presolve that takes the sides which a row implies for a whole column.
ghost use Rattle.std.specs.Prelude.{◌≡◌, ◌<◌, length, IfSome, IfOk};
ghost use Rattle.cip_presolve.specs.NarrowedPrograms.{IsExactStep};
ghost use Rattle.cip_presolve.specs.RuleEnds.{EndsRightly};
ghost use Rattle.cip_presolve.specs.Taken.{IsEnclosed, IsImplied};

use crate::drafts::Draft;
use crate::rests::{difference, rests, term_at};
use crate::rules::{ColumnSides, Outcome, is_far};
use crate::single_rows::single_sides;
use cip_lin::Sides;
use std::alloc::{AllocError, Global};

/// The whole column of the term of a row at a place, and its sides met with those that the row implies; `None` where it
/// isn't whole, or a number isn't in range, and `Err` where a growth was refused.
#[tactic(auto, using(crate::proofs::ImpliedSides::finding))]
fn implied(
    alloc: Global,
    draft: &Draft,
    number: usize,
    at: usize,
    extent: Sides,
    anew: bool,
) -> Result<Option<ColumnSides>, AllocError>
    requires inside { number < length draft.now.rows }
    requires encloses { IsEnclosed draft.now number extent }
    ensures { IfOk result (λ implied. IfSome implied (λ found. IsImplied draft.now found.column found.sides)) }
{
    let row = draft.row(number);
    if at >= row.terms().len() {
        return Ok(None);
    }
    let term = term_at(row, at);
    if draft.is_semi(term.col) || !draft.is_whole(term.col) {
        return Ok(None);
    }
    let others = rests(alloc, row, at, draft.bounds(), extent, anew)?;
    let low = difference(row.low(), others.high);
    let high = difference(row.high(), others.low);
    let Some(implied) = single_sides(term.coef, low, high, true) else {
        return Ok(None);
    };
    Ok(Some(ColumnSides {
        column: term.col,
        sides: draft.bounds().sides(term.col).met(implied),
    }))
}

/// Takes sides that a column may take, where they are stronger than its own and, for a whole column, not of a size above
/// 2^100; `NoPoint` where the low side passes the high one.
#[tactic(auto, using(crate::proofs::ImpliedSides::taking))]
pub(crate) fn take_stronger(draft: &mut Draft, found: ColumnSides) -> Outcome
    requires { IsImplied draft.old found.column found.sides }
    ensures step { IsExactStep draft.old draft.new }
    ensures end { EndsRightly draft.new result }
    ensures rows { draft.new.rows ≡ draft.old.rows }
    ensures columns { length draft.new.bounds ≡ length draft.old.bounds }
{
    if found.sides.cross() {
        return Outcome::NoPoint;
    }
    if draft.is_whole(found.column) && is_far(found.sides) {
        return Outcome::Kept;
    }
    if draft.bounds().sides(found.column).is_inside(found.sides) {
        return Outcome::Kept;
    }
    draft.set_sides(found.column, found.sides);
    Outcome::Tightened(found.column)
}

/// Takes the sides that a row implies for the column of its term at a place, where it is whole and they are stronger
/// than its own and not of a size above 2^100; `NoPoint` where the low side passes the high one. The activity of the
/// row lies between the sides `extent` in the bounds; where that term alone leaves one of them open, the rest of the
/// row is to be summed up `anew`. `Err` comes where a growth was refused.
#[tactic(auto, using(crate::proofs::ImpliedSides::taking))]
pub fn try_implied(
    alloc: Global,
    draft: &mut Draft,
    number: usize,
    at: usize,
    extent: Sides,
    anew: bool,
) -> Result<Outcome, AllocError>
    requires inside { number < length draft.old.rows }
    requires encloses { IsEnclosed draft.old number extent }
    ensures step { IsExactStep draft.old draft.new }
    ensures end { IfOk result (EndsRightly draft.new) }
    ensures rows { draft.new.rows ≡ draft.old.rows }
    ensures columns { length draft.new.bounds ≡ length draft.old.bounds }
{
    match implied(alloc, draft, number, at, extent, anew) {
        Ok(Some(found)) => Ok(take_stronger(draft, found)),
        Ok(None) => Ok(Outcome::Kept),
        Err(error) => Err(error),
    }
}
