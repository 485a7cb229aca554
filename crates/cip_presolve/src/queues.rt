//! What waits to be looked at: hints, of which nothing is promised but that each call ends.
ghost use Rattle.std.specs.Prelude.{length, ◌<◌, ◌^◌};

use cip_lin::Row;
use std::alloc::{AllocError, Global};

/// The numbers of so many rows, the first one last. `Err` where the memory for them was refused.
fn all_rows(alloc: Global, rows: usize) -> Result<Vec<u32>, AllocError>
    requires { rows < 2 ^ 32 }
{
    let mut waiting = Vec::new(alloc);
    for back in 0..rows {
        waiting.push((rows - 1 - back) as u32)?;
    }
    Ok(waiting)
}

/// A row waits from now on, where there are flags for the rows that do. `Err` comes where a growth was refused.
fn add(waiting: &mut Vec<u32>, marked: &mut Vec<bool>, row: u32) -> Result<(), AllocError> {
    let at = row as usize;
    if at < marked.len() && !marked[at] {
        waiting.push(row)?;
        marked[at] = true;
    }
    Ok(())
}

/// These rows wait from now on. `Err` comes where a growth was refused.
fn add_all(waiting: &mut Vec<u32>, marked: &mut Vec<bool>, rows: &[u32]) -> Result<(), AllocError> {
    for row in rows {
        add(waiting, marked, *row)?;
    }
    Ok(())
}

/// No list for each of so many columns. `Err` where the memory for it was refused.
fn no_lists(alloc: Global, columns: usize) -> Result<Vec<Vec<u32>>, AllocError> {
    let mut lists = Vec::new(alloc);
    for _ in 0..columns {
        lists.push(Vec::new(alloc))?;
    }
    Ok(lists)
}

/// Puts a row into the list of a column. `Err` comes where a growth was refused.
fn put(lists: &mut Vec<Vec<u32>>, row: u32, column: u32) -> Result<(), AllocError> {
    match lists.get_mut(column as usize) {
        Some(list) => Ok(list.push(row)?),
        None => Ok(()),
    }
}

/// Puts a row into the list of each of its columns. `Err` comes where a growth was refused.
fn put_row(lists: &mut Vec<Vec<u32>>, row: &Row, number: u32) -> Result<(), AllocError> {
    for term in row.terms() {
        put(lists, number, term.col)?;
    }
    Ok(())
}

/// For each of so many columns the rows that have a term on it. `Err` where the memory for them was refused.
fn row_lists(alloc: Global, rows: &[Row], columns: usize) -> Result<Vec<Vec<u32>>, AllocError>
    requires { length rows.now < 2 ^ 32 }
{
    let mut lists = no_lists(alloc, columns)?;
    for number in 0..rows.len() {
        put_row(&mut lists, &rows[number], number as u32)?;
    }
    Ok(lists)
}

/// The rows of a column.
fn rows_on(lists: &[Vec<u32>], column: u32) -> &[u32] {
    match lists.get(column as usize) {
        Some(list) => list.as_slice(),
        None => &[],
    }
}

/// The most steps that presolve takes.
const MOST_STEPS: u32 = 1_000_000;

/// Numbers of rows that wait, with a flag for each row that does, for each column the rows that have a term on it,
/// which rows gave a column its form for a substitution, and how many steps were taken.
#[derive(Drop)]
pub struct Work {
    waiting: Vec<u32>,
    marked: Vec<bool>,
    lists: Vec<Vec<u32>>,
    used: Vec<bool>,
    steps: u32,
}

impl Work {
    /// All of these rows wait, the first one to be looked at first. `Err` where the memory for that was refused.
    pub fn new(alloc: Global, rows: &[Row], columns: usize) -> Result<Work, AllocError>
        requires { length rows.now < 2 ^ 32 }
    {
        let Ok(used) = vec![in alloc; false; rows.len()] else {
            return Err(AllocError);
        };
        let Ok(marked) = vec![in alloc; true; rows.len()] else {
            return Err(AllocError);
        };
        let Ok(waiting) = all_rows(alloc, rows.len()) else {
            return Err(AllocError);
        };
        let Ok(lists) = row_lists(alloc, rows, columns) else {
            return Err(AllocError);
        };
        Ok(Work {
            waiting,
            marked,
            lists,
            used,
            steps: 0,
        })
    }

    /// The row that waits and came last, which waits no more; `None` where none waits, or as many steps were taken as
    /// may be.
    pub fn next(&mut self) -> Option<u32> {
        if self.steps >= MOST_STEPS {
            return None;
        }
        let Some(row) = self.waiting.pop() else {
            return None;
        };
        if let Some(mark) = self.marked.get_mut(row as usize) {
            *mark = false;
        }
        Some(row)
    }

    /// Whether no row is to be looked at.
    pub fn is_done(&self) -> bool {
        self.steps >= MOST_STEPS || self.waiting.is_empty()
    }

    /// A step was taken that changes no column.
    pub fn count_step(&mut self) {
        self.steps = self.steps.saturating_add(1);
    }

    /// A step was taken that changes a row, which waits from now on. `Err` comes where a growth was refused.
    pub fn row_changed(&mut self, row: u32) -> Result<(), AllocError> {
        self.count_step();
        add(&mut self.waiting, &mut self.marked, row)
    }

    /// A step was taken that changes the sides of a column, whose rows wait from now on. `Err` comes where a growth was
    /// refused.
    pub fn column_changed(&mut self, column: u32) -> Result<(), AllocError> {
        self.count_step();
        let rows = rows_on(self.lists.as_slice(), column);
        add_all(&mut self.waiting, &mut self.marked, rows)
    }

    /// A step was taken that puts a term on a column into a row, which waits from now on. `Err` comes where a growth
    /// was refused.
    pub fn row_moved(&mut self, row: u32, column: u32) -> Result<(), AllocError> {
        put(&mut self.lists, row, column)?;
        self.row_changed(row)
    }

    /// How many rows may have a term on a column.
    pub fn count_of(&self, column: u32) -> usize {
        rows_on(self.lists.as_slice(), column).len()
    }

    /// One of the rows that may have a term on a column.
    pub fn row_of(&self, column: u32, at: usize) -> Option<u32> {
        rows_on(self.lists.as_slice(), column).get(at).copied()
    }

    /// Whether a row gave a column its form for a substitution.
    pub fn is_used(&self, row: u32) -> bool {
        let at = row as usize;
        at >= self.used.len() || self.used[at]
    }

    /// A row gives a column its form for a substitution.
    pub fn mark_used(&mut self, row: u32) {
        if let Some(used) = self.used.get_mut(row as usize) {
            *used = true;
        }
    }
}
