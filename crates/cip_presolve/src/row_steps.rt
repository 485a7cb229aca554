//! The steps of presolve by an equality of two terms, each exact: the equality stays a row of the program.
ghost use Rattle.std.specs.Prelude.{◌≡◌, ◌<◌, length, IfSome};
ghost use Rattle.cip_presolve.specs.NarrowedPrograms.{IsExactStep};
ghost use Rattle.cip_presolve.specs.RuleEnds.{EndsRightly};
ghost use Rattle.cip_presolve.specs.Taken.{IsImplied};
ghost use Rattle.cip_presolve.specs.ColumnForms.{RowGives, IsSubstitute};

use crate::drafts::Draft;
use crate::fixed_columns::less;
use crate::forms::ColumnForm;
use crate::replacing::replaced;
use crate::rules::{ColumnSides, Outcome};
use crate::single_rows::single_sides;
use crate::taking::take_stronger;
use cip_frac::Frac;
use cip_lin::Sides;
use std::alloc::{AllocError, Global};

/// Puts the form of a column in its place in a row, where another row gives the form: whether it did. Nothing is done
/// where the row has no term on the column, or a number isn't in range. `Err` comes where a growth was refused.
#[tactic(auto, using(crate::proofs::FormsSubstituted::row_steps))]
pub fn try_replace(
    alloc: Global,
    draft: &mut Draft,
    number: usize,
    place: usize,
    column: u32,
    form: &ColumnForm,
) -> Result<bool, AllocError>
    requires inside { number < length draft.old.rows }
    requires there { place < length draft.old.rows }
    requires gives { RowGives draft.old place column form.now }
    requires substitute { IsSubstitute draft.old column form.now }
    ensures step { IsExactStep draft.old draft.new }
    ensures gives { RowGives draft.new place column form.now }
    ensures substitute { IsSubstitute draft.new column form.now }
    ensures rows { length draft.new.rows ≡ length draft.old.rows }
{
    if number == place {
        return Ok(false);
    }
    let Some(row) = replaced(alloc, draft.row(number), column, form)? else {
        return Ok(false);
    };
    draft.set_row(number, row);
    Ok(true)
}

/// Moves the cost of a column to the source of its form and to the constant, where a row gives the form: whether it
/// did. Nothing is done where the column costs nothing, or a number isn't in range.
#[tactic(auto, using(crate::proofs::FormsSubstituted::cost_steps))]
pub fn move_cost(draft: &mut Draft, place: usize, column: u32, form: &ColumnForm) -> bool
    requires there { place < length draft.old.rows }
    requires gives { RowGives draft.old place column form.now }
    requires substitute { IsSubstitute draft.old column form.now }
    ensures step { IsExactStep draft.old draft.new }
    ensures rows { draft.new.rows ≡ draft.old.rows }
    ensures bounds { draft.new.bounds ≡ draft.old.bounds }
{
    let _bounds = draft.bounds();
    let cost = draft.cost(column);
    let mut constant = draft.constant();
    let mut more = draft.cost(form.source);
    if cost.is_zero()
        || !constant.add_product(&cost, &form.constant)
        || !more.add_product(&cost, &form.factor)
    {
        return false;
    }
    draft.set_cost(column, Frac::zero(), constant);
    draft.set_cost(form.source, more, constant);
    true
}

/// The sides of a form's source, met with those by which the column keeps its own; `None` where a number isn't in
/// range.
#[tactic(auto, using(crate::proofs::SourceSides::finding))]
fn source_sides(draft: &Draft, place: usize, column: u32, form: &ColumnForm) -> Option<Sides>
    requires there { place < length draft.now.rows }
    requires gives { RowGives draft.now place column form.now }
    requires substitute { IsSubstitute draft.now column form.now }
    ensures { IfSome result (IsImplied draft.now form.now.source) }
{
    if form.factor.is_zero() {
        return None;
    }
    let own = draft.bounds().sides(column);
    let Some(low) = less(own.low, form.constant) else {
        return None;
    };
    let Some(high) = less(own.high, form.constant) else {
        return None;
    };
    let whole = draft.is_whole(form.source);
    let Some(implied) = single_sides(form.factor, low, high, whole) else {
        return None;
    };
    Some(draft.bounds().sides(form.source).met(implied))
}

/// Takes the sides of a form's source by which the column keeps its own, where a row gives the form, and they are
/// stronger than the source's and, for a whole source, not of a size above 2^100; `NoPoint` where the low side passes
/// the high one.
#[tactic(auto, using(crate::proofs::SourceSides::finding))]
pub fn take_sides(draft: &mut Draft, place: usize, column: u32, form: &ColumnForm) -> Outcome
    requires there { place < length draft.old.rows }
    requires gives { RowGives draft.old place column form.now }
    requires substitute { IsSubstitute draft.old column form.now }
    ensures step { IsExactStep draft.old draft.new }
    ensures end { EndsRightly draft.new result }
    ensures rows { draft.new.rows ≡ draft.old.rows }
{
    let Some(sides) = source_sides(draft, place, column, form) else {
        return Outcome::Kept;
    };
    take_stronger(
        draft,
        ColumnSides {
            column: form.source,
            sides,
        },
    )
}
