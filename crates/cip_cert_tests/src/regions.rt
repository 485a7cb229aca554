//! What trees are checked with, and trees.
ghost use Rattle.std.specs.Prelude.{◌<◌, IsTrue, All};
ghost use Rattle.cip_problem.specs.Activity.{StandsBelow};

use cip_cert::{BoundTree, Rows, Scratch};
use cip_frac::Frac;
use cip_lagrange::{TreeBound, TreeFault, TreeRegion, tree_bound};
use cip_lin::{Bounds, Choice, Choices, Combo, Row, RowId, RowMultiple, Sides, Term};
use std::alloc::Global;

/// Rows, a box with choices, and costs.
#[derive(Drop)]
pub struct Task {
    pub own: Vec<Row>,
    pub whole: Vec<bool>,
    pub region: TreeRegion,
    pub costs: Vec<Frac>,
}

/// Whether a row stands on the first so many columns.
fn stands(row: &Row, columns: usize) -> bool
    ensures { IsTrue result → StandsBelow columns row.now.terms }
{
    row.terms().iter().all(|term| (term.col as usize) < columns)
}

/// Whether each of these rows does.
fn all_stand(rows: &[Row], columns: usize) -> bool
    ensures { IsTrue result → All (λ row. StandsBelow columns row.terms) rows.now }
{
    rows.iter().all(|row| stands(row, columns))
}

/// What `tree_bound` answers, where it may be asked.
pub fn checked(
    task: &mut Task,
    tree: &BoundTree,
    scratch: &mut Scratch,
) -> Option<Result<TreeBound, TreeFault>> {
    let columns = task.region.bounds.len();
    if task.whole.len() != columns || task.costs.len() != columns {
        return None;
    }
    if scratch.row.entries().len() < columns || !all_stand(task.own.as_slice(), columns) {
        return None;
    }
    let rows = Rows {
        own: task.own.as_slice(),
        pool: &[],
        cutoff: &None,
        whole: task.whole.as_slice(),
    };
    Some(tree_bound(
        &rows,
        &mut task.region,
        task.costs.as_slice(),
        tree,
        scratch,
    ))
}

/// The row 2 x + 2 y at most 3.
fn half_of_three(alloc: Global) -> Option<Row> {
    let mut row = Row::empty(alloc, None, Some(Frac::from(3i64)));
    let coef = Frac::from(2i64);
    let filled = row.append(Term { col: 0, coef }).is_ok();
    if filled && row.append(Term { col: 1, coef }).is_ok() {
        Some(row)
    } else {
        drop(row);
        None
    }
}

/// Adds a column from 0 to a number.
fn put_column(task: &mut Task, whole: bool, high: i64, cost: i64) -> bool {
    let sides = Sides {
        low: Some(Frac::zero()),
        high: Some(Frac::from(high)),
    };
    task.whole.push(whole).is_ok()
        && task.region.bounds.push(sides).is_ok()
        && task.costs.push(Frac::from(cost)).is_ok()
}

/// Without rows, and without columns.
fn nothing(alloc: Global) -> Option<Task> {
    match Bounds::new(alloc, 0) {
        Ok(bounds) => Some(Task {
            own: Vec::new(alloc),
            whole: Vec::new(alloc),
            region: TreeRegion {
                bounds,
                choices: Choices::new(alloc),
            },
            costs: Vec::new(alloc),
        }),
        Err(_) => None,
    }
}

/// Adds two whole columns from 0 to a number with the costs -2 and -1, and a row; whether they are there.
fn add_two(task: &mut Task, row: Row, high: i64) -> bool {
    task.own.push(row).is_ok()
        && put_column(task, true, high, -2)
        && put_column(task, true, high, -1)
}

/// Two whole columns from 0 to a number with the costs -2 and -1, where 2 x + 2 y is at most 3.
pub fn two_columns(alloc: Global, high: i64) -> Option<Task> {
    let row = half_of_three(alloc)?;
    let Some(mut task) = nothing(alloc) else {
        drop(row);
        return None;
    };
    if add_two(&mut task, row, high) {
        Some(task)
    } else {
        drop(task);
        None
    }
}

/// A column with the cost -1 that is 0 or from 2 to 5.
pub fn semi_column(alloc: Global) -> Option<Task> {
    let mut task = nothing(alloc)?;
    let own = Sides {
        low: Some(Frac::from(2i64)),
        high: Some(Frac::from(5i64)),
    };
    let filled = put_column(&mut task, false, 5, -1);
    if filled && task.region.choices.push(Choice::open(own)).is_ok() {
        Some(task)
    } else {
        drop(task);
        None
    }
}

/// A whole number of halves.
pub fn halves(count: i128) -> Frac {
    match Frac::new(count, 2) {
        Ok(value) => value,
        Err(_) => Frac::zero(),
    }
}

/// The combination of the first row with so many halves as its factor, or the empty one for 0.
fn combo(alloc: Global, count: i128) -> Option<Combo> {
    let mut rows = Vec::new(alloc);
    if count != 0 {
        let row = RowId::Own(0);
        let factor = halves(count);
        if rows.push(RowMultiple { row, factor }).is_err() {
            return None;
        }
    }
    Some(Combo {
        rows,
        lows: Vec::new(alloc),
        highs: Vec::new(alloc),
    })
}

/// A leaf that bounds the costs by so many halves of the first row, or by the box alone for 0.
pub fn bound(alloc: Global, count: i128) -> Option<BoundTree> {
    Some(BoundTree::Bound(combo(alloc, count)?))
}

/// A leaf that has no point, by so many halves of the first row, or by the box alone for 0.
pub fn empty(alloc: Global, count: i128) -> Option<BoundTree> {
    Some(BoundTree::Empty(combo(alloc, count)?))
}

/// A tree in a box of its own.
fn boxed(alloc: Global, tree: Option<BoundTree>) -> Option<Box<BoundTree>> {
    Box::new(alloc, tree?).ok()
}

/// A split with these halves.
pub fn split(
    alloc: Global,
    col: u32,
    at: i128,
    low: Option<BoundTree>,
    high: Option<BoundTree>,
) -> Option<BoundTree> {
    let Some(low) = boxed(alloc, low) else {
        drop(high);
        return None;
    };
    let Some(high) = boxed(alloc, high) else {
        drop(low);
        return None;
    };
    Some(BoundTree::Split { col, at, low, high })
}
