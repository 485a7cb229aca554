//! Lists by column: points put together, the new numbers of continuous columns, and their sides and costs.
ghost use Rattle.std.specs.Prelude.{◌≡◌, ◌+◌, ◌≤◌, length, slice_get, IfOk};
ghost use Rattle.cip_problem.specs.Activity.{value_at};
ghost use Rattle.cip_problem.specs.Limits.{most_columns};
ghost use Rattle.cip_search.specs.LeafProgram as program;
ghost use Rattle.cip_problem.specs.Choices.{decided_box};
ghost use Rattle.cip_leaf.specs.Building.{numbers_from, sides_made, made_more};

use cip_frac::Frac;
use cip_lin::{Bounds, Choices, Sides};
use std::alloc::{AllocError, Global};

/// The value at a place, 0 past the end.
fn value_at_or_zero(values: &[Frac], at: usize) -> Frac
    ensures { result ≡ value_at values.now at }
{
    match values.get(at) {
        Some(value) => *value,
        None => Frac::zero(),
    }
}

/// The point with the values of a leaf on whole columns and others on continuous ones, 0 where there are no more; `Err`
/// where memory was refused.
pub(crate) fn merged(
    alloc: Global,
    whole: &[bool],
    leaf: &[Frac],
    others: &[Frac],
) -> Result<Vec<Frac>, AllocError>
    ensures merged { IfOk result (λ point. point.items ≡ program.merged whole.now leaf.now others.now) }
    ensures long { IfOk result (λ point. length point.items ≡ length whole.now) }
{
    let mut point = Vec::new(alloc);
    let mut taken = 0;
    let mut put = 0;
    for at in 0..whole.len() {
        if whole[at] {
            point.push(value_at_or_zero(leaf, taken))?;
            taken += 1;
            continue;
        }
        point.push(value_at_or_zero(others, put))?;
        put += 1;
    }
    Ok(point)
}

/// For each column how many continuous ones stand before it; `Err` where memory was refused.
pub(crate) fn new_numbers(alloc: Global, whole: &[bool]) -> Result<Vec<u32>, AllocError>
    requires { length whole.now ≤ most_columns }
    ensures { IfOk result (λ numbers. numbers.items ≡ numbers_from 0 whole.now) }
{
    let mut numbers = Vec::new(alloc);
    let mut count = 0;
    for at in 0..whole.len() {
        numbers.push(count)?;
        if whole[at] {
            continue;
        }
        count += 1;
    }
    Ok(numbers)
}

/// The sides of a column where its choice is made, if it is open: its own ones where it is on, and else 0.
fn made_sides(own: Option<Sides>, on: Option<bool>, sides: Sides) -> Sides
    ensures { result ≡ sides_made own on sides }
{
    match (own, on) {
        (Some(own), Some(true)) => own,
        (Some(_), Some(false)) => Sides::zero(),
        _ => sides,
    }
}

/// How many choices of the leaf are taken behind a column, where so many were before it.
fn taken_behind(own: &Option<Sides>, on: Option<bool>, taken: usize) -> usize
    requires { taken ≤ most_columns }
    ensures { result ≡ taken + made_more own.now on }
{
    match (own, on) {
        (Some(_), Some(_)) => taken + 1,
        _ => taken,
    }
}

/// The entry of this place, if it is there.
fn entry_at(on: &[bool], at: usize) -> Option<bool>
    ensures { result ≡ slice_get on.now at }
{
    match on.get(at) {
        Some(is_on) => Some(*is_on),
        None => None,
    }
}

/// The sides of the columns where their choices are made; `Err` where memory was refused.
pub(crate) fn decided_sides(
    alloc: Global,
    bounds: &Bounds,
    choices: &Choices,
    on: &[bool],
) -> Result<Bounds, AllocError>
    requires { length bounds.now ≤ most_columns }
    ensures { IfOk result (λ decided. decided ≡ decided_box choices.now bounds.now on.now) }
{
    let mut decided = Bounds::new(alloc, 0)?;
    let mut taken = 0;
    for column in 0..bounds.len() as u32 {
        let own = choices.at(column).own();
        let is_on = entry_at(on, taken);
        taken = taken_behind(&own, is_on, taken);
        decided.push(made_sides(own, is_on, bounds.sides(column)))?;
    }
    Ok(decided)
}

/// The sides of the continuous columns; `Err` where memory was refused.
pub(crate) fn continuous_sides(
    alloc: Global,
    whole: &[bool],
    sides: &[Sides],
) -> Result<Bounds, AllocError>
    requires { length whole.now ≡ length sides.now }
    ensures { IfOk result (λ bounds. bounds ≡ program.at_continuous whole.now sides.now) }
{
    let mut bounds = Bounds::new(alloc, 0)?;
    for at in 0..whole.len() {
        if whole[at] {
            continue;
        }
        bounds.push(sides[at])?;
    }
    Ok(bounds)
}

/// The costs of the continuous columns; `Err` where memory was refused.
pub(crate) fn continuous_costs(
    alloc: Global,
    whole: &[bool],
    costs: &[Frac],
) -> Result<Vec<Frac>, AllocError>
    requires { length whole.now ≡ length costs.now }
    ensures { IfOk result (λ kept. kept.items ≡ program.at_continuous whole.now costs.now) }
{
    let mut kept = Vec::new(alloc);
    for at in 0..whole.len() {
        if whole[at] {
            continue;
        }
        kept.push(costs[at])?;
    }
    Ok(kept)
}
