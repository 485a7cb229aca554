//! In which rows each column stands.
use crate::tight::short;
use cip_lin::Row;
use std::alloc::{AllocError, Global};

/// In which of a list of rows each column stands.
#[derive(Drop)]
pub struct ColumnRows {
    ends: Vec<u32>,
    rows: Vec<u32>,
}

/// Which columns are taken: all, or continuous ones alone.
#[derive(Clone, Copy)]
struct Taken<'a> {
    whole: &'a [bool],
    only_continuous: bool,
}

/// Writes a row down where the list of each of its columns ends, as far as there is room, and counts it there. The end
/// of a column's list stands so many places behind the column.
fn add_row(
    number: u32,
    row: &Row,
    columns: Taken<'_>,
    behind: usize,
    ends: &mut [u32],
    rows: &mut [u32],
) {
    for term in row.terms() {
        let column = term.col as usize;
        let is_taken = match columns.whole.get(column) {
            Some(is_whole) => !(columns.only_continuous && *is_whole),
            None => false,
        };
        if is_taken {
            if let Some(end) = ends.get_mut(column.wrapping_add(behind)) {
                if let Some(place) = rows.get_mut(*end as usize) {
                    *place = number;
                }
                *end = end.wrapping_add(1);
            }
        }
    }
}

/// Adds rows to the lists of their columns.
fn add_rows(own: &[Row], columns: Taken<'_>, behind: usize, ends: &mut [u32], rows: &mut [u32]) {
    for (number, row) in own.iter().enumerate() {
        add_row(short(number), row, columns, behind, ends, rows);
    }
}

impl ColumnRows {
    /// No column. It takes no memory.
    pub fn new(alloc: Global) -> ColumnRows {
        ColumnRows {
            ends: Vec::new(alloc),
            rows: Vec::new(alloc),
        }
    }

    /// Takes rows: all their columns, or the continuous ones alone. `Err` where memory was refused; it has nothing of
    /// use then, until rows are taken again.
    pub fn take(
        &mut self,
        own: &[Row],
        whole: &[bool],
        only_continuous: bool,
    ) -> Result<(), AllocError> {
        self.ends.clear();
        self.rows.clear();
        let columns = Taken {
            whole,
            only_continuous,
        };
        self.ends.resize(whole.len().saturating_add(1), 0)?;
        add_rows(own, columns, 1, self.ends.as_mut_slice(), &mut []);
        let mut sum = 0u32;
        for end in self.ends.iter_mut() {
            sum = sum.wrapping_add(*end);
            *end = sum;
        }
        self.rows.resize(sum as usize, 0)?;
        let (ends, rows) = (self.ends.as_mut_slice(), self.rows.as_mut_slice());
        add_rows(own, columns, 0, ends, rows);
        Ok(())
    }

    /// The rows of a column, by their rising numbers; none of a column that isn't there.
    pub fn rows_of(&self, col: u32) -> &[u32] {
        let column = col as usize;
        let Some(end) = self.ends.get(column) else {
            return &[];
        };
        let start = match self.ends.get(column.wrapping_sub(1)) {
            Some(start) => *start as usize,
            None => 0,
        };
        self.rows.get(start..*end as usize).unwrap_or(&[])
    }
}
