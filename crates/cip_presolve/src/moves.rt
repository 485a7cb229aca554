//! Dual fixing: columns that no row holds go to the side at which they cost least, and columns whose value is a form of
//! one of these go with it.
ghost use Rattle.std.specs.Prelude.{◌≡◌, ◌<◌, ◌^◌, ℕ, false, true, length};
ghost use Rattle.std.specs.Prelude.{Some, IfOk, IfSome};
ghost use Rattle.cip_rational.specs.Rational.{ℚ};
ghost use Rattle.cip_problem.specs.Choices.{choice_at, is_open};
ghost use Rattle.cip_search.specs.NarrowedPrograms.{IsStep};
ghost use Rattle.cip_presolve.specs.ColumnsOut.{MayAllGo, SourcesStay};
ghost use Rattle.cip_presolve.specs.SpentRows.{RowsGo};
ghost use Rattle.cip_presolve.specs.Moves.{least_value, greatest_value, MovesTo, target_at};
ghost use Rattle.cip_presolve.specs.Moves.{AreTargets, IsEntry, AreEntries, IsPlanned, IsTaken};

use crate::drafts::Draft;
use crate::forms::ColumnForm;
use crate::locks::{free_columns, turned};
use crate::queues::Work;
use cip_frac::{Frac, Wide};
use cip_lin::Sides;
use std::alloc::{AllocError, Global};

/// The last value that sides leave a column as it falls, or rises.
fn last_value(sides: Sides, whole: bool, rising: bool) -> Option<Frac>
    ensures fallen { rising ≡ false → result ≡ least_value whole sides.low }
    ensures risen { rising ≡ true → result ≡ greatest_value whole sides.high }
{
    if rising {
        let Some(high) = sides.high else {
            return None;
        };
        return Some(if whole { high.rounded_down() } else { high });
    }
    let Some(low) = sides.low else {
        return None;
    };
    Some(if whole { low.rounded_up() } else { low })
}

/// The value that a column goes to: the last one as it falls, or rises, where no row keeps it from that, it costs no
/// more there, its sides are other ones, and it isn't semi-continuous.
fn moved(draft: &Draft, column: u32, free: &[bool], rising: bool) -> Option<Frac>
    requires { column < length draft.now.bounds }
    ensures { IfSome result (MovesTo rising free.now draft.now column) }
{
    let Some(true) = free.get(column as usize) else {
        return None;
    };
    if draft.is_semi(column) || turned(rising, draft.cost(column)).is_negative() {
        return None;
    }
    let sides = draft.bounds().sides(column);
    let Some(value) = last_value(sides, draft.is_whole(column), rising) else {
        return None;
    };
    let fixed = Sides {
        low: Some(value),
        high: Some(value),
    };
    if sides.is_fixed() || !fixed.is_inside(sides) {
        return None;
    }
    Some(value)
}

/// The values that the columns may go to by themselves. `Err` where the memory for them was refused.
#[tactic(auto, using(crate::proofs::Plans::one_target))]
fn targets(
    alloc: Global,
    draft: &Draft,
    free: &[bool],
    rising: bool,
) -> Result<Vec<Option<Frac>>, AllocError>
    ensures { IfOk result (λ targets. AreTargets rising free.now draft.now targets.items) }
{
    let mut targets = Vec::new(alloc);
    for column in 0..draft.bounds().len() as u32 {
        targets.push(moved(draft, column, free, rising))?;
    }
    Ok(targets)
}

/// The value that a column goes to; `None` where it doesn't move.
fn target_at(targets: &[Option<Frac>], column: u32) -> Option<Frac>
    ensures { result ≡ target_at targets.now column }
{
    match targets.get(column as usize) {
        Some(target) => *target,
        None => None,
    }
}

/// What a plan has for a column: its own target, or where it has a form, the value that it goes to with its source; or
/// the operation that overflows.
fn entry(
    form: &Option<ColumnForm>,
    targets: &[Option<Frac>],
    column: u32,
) -> Result<Option<Frac>, Wide>
    ensures { IfOk result (IsEntry targets.now form.now column) }
{
    let Some(form) = form else {
        return Ok(target_at(targets, column));
    };
    if form.factor.is_zero() {
        return Ok(None);
    }
    let Some(value) = target_at(targets, form.source) else {
        return Ok(None);
    };
    match form.constant.plus_product(form.factor, value) {
        Ok(target) => Ok(Some(target)),
        Err(wide) => Err(wide),
    }
}

/// What a plan has for all columns; `None` where a number isn't in range. `Err` where the memory for it was refused.
#[tactic(auto, using(crate::proofs::Plans::one_entry))]
fn entries(
    alloc: Global,
    forms: &[Option<ColumnForm>],
    targets: &[Option<Frac>],
) -> Result<Option<Vec<Option<Frac>>>, AllocError>
    requires { length forms.now < 2 ^ 32 }
    ensures { IfOk result (λ found. IfSome found (λ plan. AreEntries forms.now targets.now plan.items)) }
{
    let mut plan = Vec::new(alloc);
    for column in 0..forms.len() {
        let form = &forms[column];
        match entry(form, targets, column as u32) {
            Ok(target) => plan.push(target)?,
            Err(_) => return Ok(None),
        }
    }
    Ok(Some(plan))
}

/// Where all columns go; `None` where a number isn't in range. `Err` where the memory for it was refused.
#[tactic(auto, using(crate::proofs::Plans::planning))]
fn planned(
    alloc: Global,
    draft: &Draft,
    forms: &[Option<ColumnForm>],
    rising: bool,
) -> Result<Option<Vec<Option<Frac>>>, AllocError>
    requires may { MayAllGo draft.now forms.now }
    requires sources { SourcesStay forms.now }
    ensures { IfOk result (λ found. IfSome found (λ plan. IsPlanned rising draft.now forms.now plan.items)) }
{
    let columns = draft.bounds().len();
    let free = free_columns(alloc, draft.rows(), forms, columns, rising)?;
    let targets = targets(alloc, draft, free.as_slice(), rising)?;
    entries(alloc, forms, targets.as_slice())
}

/// Gives each column that moves its target as both sides.
#[tactic(auto, using(crate::proofs::Plans::taking_plans))]
fn take_plan(draft: &mut Draft, plan: &[Option<Frac>])
    requires { (column : ℕ) (value : ℚ)
        → target_at plan.now column ≡ Some value → is_open (choice_at draft.old.choices column) ≡ false }
    ensures { IsTaken plan.now draft.old draft.new }
{
    for column in 0..draft.bounds().len() as u32 {
        let Some(value) = target_at(plan, column) else {
            continue;
        };
        let fixed = Sides {
            low: Some(value),
            high: Some(value),
        };
        draft.set_sides(column, fixed);
    }
}

/// The rows of the columns that move wait from now on. `Err` comes where a growth was refused.
fn tell_moved(work: &mut Work, plan: &[Option<Frac>]) -> Result<(), AllocError>
    requires { length plan.now < 2 ^ 32 }
{
    for column in 0..plan.len() {
        if plan[column].is_some() {
            work.column_changed(column as u32)?;
        }
    }
    Ok(())
}

/// Moves all columns that no row keeps from rising, or from falling, to their greatest or least values, where these
/// cost no more, and those whose forms have such a column as source with it; their rows wait from then on. A row that
/// gives a column that is left out its form holds nothing. Nothing is done where a number isn't in range. `Err` comes
/// where a growth was refused.
#[tactic(auto, using(crate::proofs::Planned::taking))]
pub fn try_moves(
    alloc: Global,
    draft: &mut Draft,
    forms: &[Option<ColumnForm>],
    rising: bool,
    work: &mut Work,
) -> Result<(), AllocError>
    requires may { MayAllGo draft.old forms.now }
    requires sources { SourcesStay forms.now }
    requires rows { RowsGo forms.now draft.old.rows }
    ensures step { IsStep draft.old draft.new }
    ensures rows { draft.new.rows ≡ draft.old.rows }
{
    let _bounds = draft.bounds();
    let Some(plan) = planned(alloc, draft, forms, rising)? else {
        return Ok(());
    };
    take_plan(draft, plan.as_slice());
    tell_moved(work, plan.as_slice())
}
