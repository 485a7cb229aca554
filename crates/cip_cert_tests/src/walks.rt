//! A walk through the points of 0 and 1 of a block, which grows the tree that proves what the cheapest costs.
use cip_cert::BoundTree;
use cip_frac::Frac;
use cip_lagrange::Subproblem;
use cip_lin::{Combo, Row, RowId, RowMultiple};
use std::alloc::{AllocError, Global};

/// What was found so far.
#[derive(Drop)]
pub struct Walk {
    /// The values at hand.
    pub values: Vec<Frac>,
    /// What the cheapest point so far costs, if there is one.
    pub least: Option<Frac>,
    /// Its values.
    pub best: Option<Vec<Frac>>,
}

impl Walk {
    /// Before the first point of so many columns.
    pub fn new(alloc: Global, columns: usize) -> Result<Walk, AllocError> {
        let values = vec![in alloc; Frac::zero(); columns]?;
        Ok(Walk {
            values,
            least: None,
            best: None,
        })
    }

    /// Puts a value of a column.
    fn set(&mut self, at: u32, value: Frac) {
        let at = at as usize;
        if at < self.values.len() {
            self.values[at] = value;
        }
    }

    /// Takes the values at hand as the cheapest point so far.
    fn take(&mut self, alloc: Global, cost: Frac) -> Result<(), AllocError> {
        let values = Vec::from_slice(alloc, self.values.as_slice())?;
        self.best = Some(values);
        self.least = Some(cost);
        Ok(())
    }
}

/// The sum of a row at values, if they are as many as it wants and it is in range.
fn activity(row: &Row, values: &[Frac]) -> Option<Frac> {
    let mut sum = Frac::zero();
    for term in row.terms() {
        let at = term.col as usize;
        if at >= values.len() {
            return None;
        }
        match sum.plus_product(term.coef, values[at]) {
            Ok(more) => sum = more,
            Err(_) => return None,
        }
    }
    Some(sum)
}

/// The factor by which a row shows that no point has these values: 1 below its low side, -1 above its high one.
fn factor_of(row: &Row, values: &[Frac]) -> Option<Frac> {
    let sum = activity(row, values)?;
    if row.low().is_some_and(|low| sum < low) {
        return Some(Frac::one());
    }
    if row.high().is_some_and(|high| high < sum) {
        return Some(Frac::one().neg());
    }
    None
}

/// The first row that the values break, with that factor.
fn broken(rows: &[Row], values: &[Frac]) -> Option<RowMultiple> {
    for at in 0..rows.len() {
        let number = u32::try_from(at).ok()?;
        if let Some(factor) = factor_of(&rows[at], values) {
            let row = RowId::Own(number);
            return Some(RowMultiple { row, factor });
        }
    }
    None
}

/// What the values of the first columns cost, with the others where they cost least.
fn reach(costs: &[Frac], values: &[Frac], fixed: u32) -> Option<Frac> {
    let mut sum = Frac::zero();
    for at in 0..costs.len() {
        if at >= values.len() {
            return None;
        }
        let least = if at < fixed as usize {
            values[at]
        } else if costs[at].is_negative() {
            Frac::one()
        } else {
            Frac::zero()
        };
        match sum.plus_product(costs[at], least) {
            Ok(more) => sum = more,
            Err(_) => return None,
        }
    }
    Some(sum)
}

/// A combination of one row, or of none.
fn combo(alloc: Global, multiple: Option<RowMultiple>) -> Result<Combo, AllocError> {
    let mut rows = Vec::new(alloc);
    if let Some(multiple) = multiple {
        rows.push(multiple)?;
    }
    Ok(Combo {
        rows,
        lows: Vec::new(alloc),
        highs: Vec::new(alloc),
    })
}

/// The leaf of one point: it is the cheapest so far, or its row shows that it is none.
fn leaf(
    alloc: Global,
    part: &Subproblem,
    costs: &[Frac],
    walk: &mut Walk,
) -> Result<BoundTree, AllocError> {
    let broken = broken(part.rows.as_slice(), walk.values.as_slice());
    if broken.is_some() {
        return Ok(BoundTree::Empty(combo(alloc, broken)?));
    }
    if let Some(cost) = reach(costs, walk.values.as_slice(), u32::MAX) {
        if walk.least.is_none_or(|least| cost < least) {
            walk.take(alloc, cost)?;
        }
    }
    Ok(BoundTree::Bound(combo(alloc, None)?))
}

/// Whether no point with these values of the first columns costs less than the cheapest so far.
fn is_dear(costs: &[Frac], walk: &Walk, fixed: u32) -> bool {
    match (walk.least, reach(costs, walk.values.as_slice(), fixed)) {
        (Some(least), Some(cost)) => least <= cost,
        _ => false,
    }
}

/// A split of a column at 0.
fn split(
    alloc: Global,
    col: u32,
    low: BoundTree,
    high: BoundTree,
) -> Result<BoundTree, AllocError> {
    let low = match Box::new(alloc, low) {
        Ok(low) => low,
        Err(error) => {
            drop(high);
            return Err(error.into());
        }
    };
    match Box::new(alloc, high) {
        Ok(high) => Ok(BoundTree::Split {
            col,
            at: 0,
            low,
            high,
        }),
        Err(error) => {
            drop(low);
            Err(error.into())
        }
    }
}

/// The tree of the points with the values at hand of the columns before a first one.
pub fn grow(
    alloc: Global,
    part: &Subproblem,
    costs: &[Frac],
    first: u32,
    walk: &mut Walk,
) -> Result<BoundTree, AllocError> {
    if first as usize >= costs.len() || first == u32::MAX {
        return leaf(alloc, part, costs, walk);
    }
    if is_dear(costs, walk, first) {
        return Ok(BoundTree::Bound(combo(alloc, None)?));
    }
    walk.set(first, Frac::zero());
    let low = grow(alloc, part, costs, first + 1, walk)?;
    walk.set(first, Frac::one());
    match grow(alloc, part, costs, first + 1, walk) {
        Ok(high) => split(alloc, first, low, high),
        Err(error) => {
            drop(low);
            Err(error)
        }
    }
}
