//! Sparse rows modulo the prime, and in which rows each column stands.
use crate::lists::item_at;
use crate::residues::{minus, times};
use std::alloc::{AllocError, Global};

/// A row: numbers by rising column.
pub(crate) type SparseRow = Vec<(u32, u64)>;

/// Empties the first lists, and has at least so many.
pub(crate) fn ready_lists<T: Drop>(
    alloc: Global,
    lists: &mut Vec<Vec<T>>,
    count: usize,
) -> Result<(), AllocError> {
    for list in lists.iter_mut() {
        list.clear();
    }
    for _ in lists.len()..count {
        lists.push(Vec::new(alloc))?;
    }
    Ok(())
}

/// Puts a number at the end.
pub(crate) fn push_number(numbers: &mut Vec<u32>, number: u32) -> Result<(), AllocError> {
    if numbers.push(number).is_err() {
        return Err(AllocError);
    }
    Ok(())
}

/// In which rows each column stands, or stood, and in how many that are left it does.
#[derive(Drop)]
pub(crate) struct Columns {
    within: Vec<Vec<u32>>,
    counts: Vec<u32>,
}

impl Columns {
    /// No columns.
    pub(crate) fn new(alloc: Global) -> Columns {
        Columns {
            within: Vec::new(alloc),
            counts: Vec::new(alloc),
        }
    }

    /// So many columns that stand in no row.
    pub(crate) fn begin(&mut self, alloc: Global, count: usize) -> Result<(), AllocError> {
        ready_lists(alloc, &mut self.within, count)?;
        self.counts.clear();
        self.counts.resize(count, 0)
    }

    /// In how many rows that are left a column stands.
    pub(crate) fn count(&self, column: u32) -> u32 {
        item_at(self.counts.as_slice(), column as usize, 0)
    }

    /// A column comes to stand in a row.
    pub(crate) fn gain(&mut self, column: u32, row: u32) -> Result<(), AllocError> {
        if let Some(count) = self.counts.get_mut(column as usize) {
            *count = count.saturating_add(1);
        }
        match self.within.get_mut(column as usize) {
            Some(rows) => push_number(rows, row),
            None => Ok(()),
        }
    }

    /// A column stands in one row less.
    pub(crate) fn lose(&mut self, column: u32) {
        if let Some(count) = self.counts.get_mut(column as usize) {
            *count = count.saturating_sub(1);
        }
    }

    /// Lists the rows in which a column stands or stood.
    pub(crate) fn list_rows(&self, column: u32, out: &mut Vec<u32>) -> Result<(), AllocError> {
        out.clear();
        match self.within.get(column as usize) {
            Some(rows) => out.extend_from_slice(rows.as_slice()),
            None => Ok(()),
        }
    }
}

/// The number of a row on a column, 0 where it has none.
pub(crate) fn number_on(row: &[(u32, u64)], column: u32) -> u64 {
    for item in row {
        if item.0 == column {
            return item.1;
        }
    }
    0
}

/// A multiple of a row, which is taken off another, and the column that it takes out there.
#[derive(Clone, Copy)]
pub(crate) struct Multiple<'a> {
    pub(crate) row: &'a [(u32, u64)],
    pub(crate) factor: u64,
    pub(crate) column: u32,
}

// What stands past the end of a row: no column has this number.
const END: (u32, u64) = (u32::MAX, 0);

/// Writes a row less a multiple of another; the columns of the row with this number change so.
pub(crate) fn write_difference(
    own: &[(u32, u64)],
    multiple: Multiple<'_>,
    number: u32,
    columns: &mut Columns,
    out: &mut Vec<(u32, u64)>,
) -> Result<(), AllocError> {
    out.clear();
    let mut here = 0usize;
    let mut there = 0usize;
    for _ in 0..own.len().saturating_add(multiple.row.len()) {
        let (own_column, own_number) = item_at(own, here, END);
        let (other_column, other_number) = item_at(multiple.row, there, END);
        let column = own_column.min(other_column);
        if column == u32::MAX {
            return Ok(());
        }
        let (is_own, is_other) = (own_column == column, other_column == column);
        let mut left = own_number;
        if is_own {
            here = here.wrapping_add(1);
        } else {
            left = 0;
            columns.gain(column, number)?;
        }
        if is_other {
            there = there.wrapping_add(1);
            left = minus(left, times(multiple.factor, other_number));
        }
        if is_own && is_other && (column == multiple.column || left == 0) {
            columns.lose(column);
        } else {
            out.push((column, left))?;
        }
    }
    Ok(())
}
