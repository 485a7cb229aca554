//! Which rows have to be looked at again as a box changes.
use crate::column_rows::ColumnRows;
use crate::tight::short;
use cip_lin::{Row, Sides};
use std::alloc::{AllocError, Global};

/// A box as it was seen last, and the rows with a column whose sides have changed since they were looked at. A row in
/// work, from `next` to `end`, doesn't wait.
#[derive(Drop)]
pub struct Watched {
    columns: ColumnRows,
    seen: Vec<Sides>,
    is_waiting: Vec<bool>,
    waiting: Vec<u32>,
}

/// Has those of these rows wait that are there and don't wait.
fn wait_all(
    rows: &[u32],
    is_waiting: &mut [bool],
    waiting: &mut Vec<u32>,
) -> Result<(), AllocError> {
    for number in rows {
        if let Some(own) = is_waiting.get_mut(*number as usize) {
            if !*own {
                *own = true;
                waiting.push(*number)?;
            }
        }
    }
    Ok(())
}

impl Watched {
    /// No row. It takes no memory.
    pub fn new(alloc: Global) -> Watched {
        Watched {
            columns: ColumnRows::new(alloc),
            seen: Vec::new(alloc),
            is_waiting: Vec::new(alloc),
            waiting: Vec::new(alloc),
        }
    }

    /// Takes a program's rows, all of which wait, and its box. `Err` where memory was refused.
    pub fn take(&mut self, own: &[Row], whole: &[bool], sides: &[Sides]) -> Result<(), AllocError> {
        self.columns.take(own, whole, false)?;
        self.waiting.clear();
        self.is_waiting.clear();
        self.is_waiting.resize(own.len(), true)?;
        for number in 0..own.len() {
            self.waiting.push(short(number))?;
        }
        self.see(sides)
    }

    /// Takes a box as seen: no row comes to wait for what has changed up to now. `Err` where memory was refused.
    pub fn see(&mut self, sides: &[Sides]) -> Result<(), AllocError> {
        self.seen.clear();
        self.seen.extend_from_slice(sides)
    }

    /// Has a row wait, where it neither waits nor is in work. `Err` where memory was refused.
    pub fn wait_for(&mut self, number: u32) -> Result<(), AllocError> {
        wait_all(&[number], self.is_waiting.as_mut_slice(), &mut self.waiting)
    }

    /// Has the rows of a column wait that neither wait nor are in work. `Err` where memory was refused.
    pub fn wait_for_column(&mut self, col: u32) -> Result<(), AllocError> {
        let rows = self.columns.rows_of(col);
        wait_all(rows, self.is_waiting.as_mut_slice(), &mut self.waiting)
    }

    /// Takes a box as seen, and has the rows wait of the columns whose sides differ from those that were seen before.
    /// `Err` where memory was refused.
    pub fn look(&mut self, sides: &[Sides]) -> Result<(), AllocError> {
        for (col, own) in sides.iter().enumerate() {
            if self.seen.get(col) != Some(own) {
                self.wait_for_column(short(col))?;
            }
        }
        self.see(sides)
    }

    /// Has no row wait.
    pub fn calm(&mut self) {
        for number in &self.waiting {
            if let Some(is_waiting) = self.is_waiting.get_mut(*number as usize) {
                *is_waiting = false;
            }
        }
        self.waiting.clear();
    }

    /// The next row that waits, which is in work from now on: it doesn't wait again until `end` says that it isn't.
    pub fn next(&mut self) -> Option<u32> {
        self.waiting.pop()
    }

    /// A row is in work no longer.
    pub fn end(&mut self, number: u32) {
        if let Some(is_waiting) = self.is_waiting.get_mut(number as usize) {
            *is_waiting = false;
        }
    }

    /// How many rows wait.
    pub fn count(&self) -> usize {
        self.waiting.len()
    }
}
