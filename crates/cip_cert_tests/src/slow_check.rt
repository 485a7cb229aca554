//! A plain check of what is answered, from the rows, the sides and the costs alone; of a combination by the checks of
//! `cip_cert`. A sum that leaves the range is `None`.
ghost use Rattle.std.specs.Prelude.{IsTrue, All};
ghost use Rattle.cip_problem.specs.Activity.{StandsBelow};

use cip_cert::{Rows, Scratch, empties, lower_bound};
use cip_frac::Frac;
use cip_lin::{Bounds, Combo, Row, Sides, Term};
use cip_simplex::LpAnswer;
use std::alloc::Global;

/// What was solved.
#[derive(Clone, Copy)]
pub(crate) struct Program<'a> {
    pub(crate) rows: &'a [Row],
    pub(crate) bounds: &'a Bounds,
    pub(crate) costs: &'a [Frac],
}

// sum + a * b
fn plus(sum: Frac, a: Frac, b: Frac) -> Option<Frac> {
    match a.mul(b) {
        Ok(product) => sum.add(product).ok(),
        Err(_) => None,
    }
}

// the same of numbers that may not be there
fn plus_some(sum: Option<Frac>, a: Frac, b: Option<Frac>) -> Option<Frac> {
    match (sum, b) {
        (Some(sum), Some(b)) => plus(sum, a, b),
        _ => None,
    }
}

fn value_at(point: &[Frac], column: u32) -> Frac {
    match point.get(column as usize) {
        Some(value) => *value,
        None => Frac::zero(),
    }
}

fn dot(xs: &[Frac], ys: &[Frac]) -> Option<Frac> {
    let mut sum = Some(Frac::zero());
    for at in 0..xs.len().min(ys.len()) {
        sum = plus_some(sum, xs[at], Some(ys[at]));
    }
    sum
}

fn activity(terms: &[Term], point: &[Frac]) -> Option<Frac> {
    let mut sum = Some(Frac::zero());
    for term in terms {
        sum = plus_some(sum, term.coef, Some(value_at(point, term.col)));
    }
    sum
}

fn sides_of(row: &Row) -> Sides {
    Sides {
        low: row.low(),
        high: row.high(),
    }
}

// a value lies between sides
fn keeps(sides: Sides, value: Option<Frac>) -> bool {
    match value {
        Some(value) => sides.contains(value),
        None => false,
    }
}

// a point keeps the sides of all columns
fn keeps_bounds(program: Program<'_>, point: &[Frac]) -> bool {
    let bounds = program.bounds.as_slice();
    if point.len() != bounds.len() {
        return false;
    }
    for at in 0..point.len() {
        if !bounds[at].contains(point[at]) {
            return false;
        }
    }
    true
}

// a point keeps the sides of all rows
fn keeps_rows(program: Program<'_>, point: &[Frac]) -> bool {
    for row in program.rows {
        if !keeps(sides_of(row), activity(row.terms(), point)) {
            return false;
        }
    }
    true
}

// a value stays between sides, however often it is changed so
fn stays(sides: Sides, change: Option<Frac>) -> bool {
    let Some(change) = change else {
        return false;
    };
    let up = sides.low.is_none() || Frac::zero() <= change;
    let down = sides.high.is_none() || change <= Frac::zero();
    up && down
}

// a ray keeps the sides of all columns
fn stays_in_bounds(program: Program<'_>, ray: &[Frac]) -> bool {
    let bounds = program.bounds.as_slice();
    if ray.len() != bounds.len() {
        return false;
    }
    for at in 0..ray.len() {
        if !stays(bounds[at], Some(ray[at])) {
            return false;
        }
    }
    true
}

// a ray keeps the sides of all rows
fn stays_in_rows(program: Program<'_>, ray: &[Frac]) -> bool {
    for row in program.rows {
        if !stays(sides_of(row), activity(row.terms(), ray)) {
            return false;
        }
    }
    true
}

// a ray keeps all sides, and the cost falls along it
fn is_ray(program: Program<'_>, ray: &[Frac]) -> bool {
    let falls = match dot(program.costs, ray) {
        Some(change) => change < Frac::zero(),
        None => false,
    };
    falls && stays_in_bounds(program, ray) && stays_in_rows(program, ray)
}

// a row stands on the first so many columns
fn stands(row: &Row, columns: usize) -> bool
    ensures { IsTrue result → StandsBelow columns row.now.terms }
{
    row.terms().iter().all(|term| (term.col as usize) < columns)
}

// each of these rows does
fn all_stand(rows: &[Row], columns: usize) -> bool
    ensures { IsTrue result → All (λ row. StandsBelow columns row.terms) rows.now }
{
    rows.iter().all(|row| stands(row, columns))
}

// what costs come to at least by a combination
fn bound(alloc: Global, program: Program<'_>, combo: &Combo) -> Option<Frac> {
    let columns = program.bounds.len();
    let mut scratch = Scratch::new(alloc, columns.min(64)).ok()?;
    if scratch.row.entries().len() < columns
        || program.costs.len() != columns
        || !all_stand(program.rows, columns)
    {
        drop(scratch);
        return None;
    }
    let rows = Rows {
        own: program.rows,
        pool: &[],
        cutoff: &None,
        whole: &[],
    };
    let least = lower_bound(&rows, program.bounds, program.costs, combo, &mut scratch).ok();
    drop(scratch);
    least
}

// a combination shows that no point is there
fn is_empty(alloc: Global, program: Program<'_>, combo: &Combo) -> bool {
    let columns = program.bounds.len();
    let Ok(mut scratch) = Scratch::new(alloc, columns.min(64)) else {
        return false;
    };
    if scratch.row.entries().len() < columns || !all_stand(program.rows, columns) {
        drop(scratch);
        return false;
    }
    let rows = Rows {
        own: program.rows,
        pool: &[],
        cutoff: &None,
        whole: &[],
    };
    let is_so = empties(&rows, program.bounds, combo, &mut scratch).is_ok();
    drop(scratch);
    is_so
}

fn is_point(program: Program<'_>, point: &[Frac]) -> bool {
    keeps_bounds(program, point) && keeps_rows(program, point)
}

/// What an answer says is so.
pub(crate) fn is_right(alloc: Global, program: Program<'_>, found: &LpAnswer) -> bool {
    match found {
        LpAnswer::Optimal { point, combo, cost } => {
            is_point(program, point.as_slice())
                && dot(program.costs, point.as_slice()) == Some(*cost)
                && bound(alloc, program, combo) == Some(*cost)
        }
        LpAnswer::Infeasible { combo } => is_empty(alloc, program, combo),
        LpAnswer::Unbounded { point, ray } => {
            is_point(program, point.as_slice()) && is_ray(program, ray.as_slice())
        }
        LpAnswer::Wide { moves: _ } => false,
        LpAnswer::Limit => false,
    }
}
