//! Elimination modulo the prime.
use crate::given::number_of;
use crate::lists::{item_at, put_at};
use crate::residues::{inverse, minus, residue, take_product, times};
use crate::rows::{Columns, Multiple, SparseRow, number_on, ready_lists, write_difference};
use std::alloc::{AllocError, Global};
use std::mem;

/// A row less a multiple of another.
#[derive(Clone, Copy)]
struct Operation {
    row: u32,
    from: u32,
    factor: u64,
}

/// A row, and the column that it is solved for, with the inverse of the number there.
#[derive(Clone, Copy)]
struct Pivot {
    row: u32,
    column: u32,
    inverse: u64,
}

/// The eliminated rows of a square matrix, and how they came to be.
#[derive(Drop)]
pub(crate) struct Elimination {
    rows: Vec<SparseRow>,
    is_done: Vec<bool>,
    columns: Columns,
    operations: Vec<Operation>,
    pivots: Vec<Pivot>,
    own: SparseRow,
    out: SparseRow,
    touched: Vec<u32>,
}

/// The column of a row that stands in the fewest rows that are left, and the number there.
fn rarest(row: &[(u32, u64)], columns: &Columns) -> Option<(u32, u64)> {
    let mut found = None;
    let mut fewest = u32::MAX;
    for item in row {
        let count = columns.count(item.0);
        if count < fewest {
            fewest = count;
            found = Some(*item);
        }
    }
    found
}

/// A row modulo the prime.
fn reduce_row(
    numbers: &[(u32, i64)],
    row: u32,
    columns: &mut Columns,
    out: &mut SparseRow,
) -> Result<(), AllocError> {
    for item in numbers {
        let rest = residue(i128::from(item.1));
        if rest != 0 {
            out.push((item.0, rest))?;
            columns.gain(item.0, row)?;
        }
    }
    Ok(())
}

impl Elimination {
    /// Nothing.
    pub(crate) fn new(alloc: Global) -> Elimination {
        Elimination {
            rows: Vec::new(alloc),
            is_done: Vec::new(alloc),
            columns: Columns::new(alloc),
            operations: Vec::new(alloc),
            pivots: Vec::new(alloc),
            own: Vec::new(alloc),
            out: Vec::new(alloc),
            touched: Vec::new(alloc),
        }
    }

    /// Takes the rows of a matrix, modulo the prime.
    fn take(
        &mut self,
        alloc: Global,
        matrix: &[Vec<(u32, i64)>],
        size: usize,
    ) -> Result<(), AllocError> {
        self.operations.clear();
        self.pivots.clear();
        self.is_done.clear();
        self.is_done.resize(size, false)?;
        ready_lists(alloc, &mut self.rows, size)?;
        self.columns.begin(alloc, size)?;
        for at in 0..size {
            if let (Some(numbers), Some(row)) = (matrix.get(at), self.rows.get_mut(at)) {
                reduce_row(numbers.as_slice(), number_of(at), &mut self.columns, row)?;
            }
        }
        Ok(())
    }

    /// The row that is left and has the fewest numbers, if it has any.
    fn shortest(&self) -> Option<u32> {
        let mut found = None;
        let mut fewest = usize::MAX;
        for (at, is_done) in self.is_done.iter().enumerate() {
            if *is_done {
                continue;
            }
            let number = number_of(at);
            let len = self.row(number).len();
            if len < fewest {
                fewest = len;
                found = Some(number);
            }
            if len <= 1 {
                break;
            }
        }
        if fewest == 0 { None } else { found }
    }

    /// Takes a column out of a row, by the row that is worked with.
    fn take_out(&mut self, number: u32, pivot: Pivot) -> Result<(), AllocError> {
        let Some(row) = self.rows.get_mut(number as usize) else {
            return Ok(());
        };
        let there = number_on(row.as_slice(), pivot.column);
        if there == 0 {
            return Ok(());
        }
        let factor = times(there, pivot.inverse);
        self.operations.push(Operation {
            row: number,
            from: pivot.row,
            factor,
        })?;
        let multiple = Multiple {
            row: self.own.as_slice(),
            factor,
            column: pivot.column,
        };
        let (columns, out) = (&mut self.columns, &mut self.out);
        write_difference(row.as_slice(), multiple, number, columns, out)?;
        mem::swap(row, out);
        Ok(())
    }

    /// Takes a column out of all rows that are left.
    fn take_out_all(&mut self, pivot: Pivot) -> Result<(), AllocError> {
        self.columns.list_rows(pivot.column, &mut self.touched)?;
        for at in 0..self.touched.len() {
            let number = item_at(self.touched.as_slice(), at, u32::MAX);
            if !item_at(self.is_done.as_slice(), number as usize, true) {
                self.take_out(number, pivot)?;
            }
        }
        Ok(())
    }

    /// Solves the shortest row that is left for its rarest column, and takes that out of the others; whether there is
    /// one. The row is the one that is worked with then.
    fn advance(&mut self) -> Result<bool, AllocError> {
        let Some(row) = self.shortest() else {
            return Ok(false);
        };
        self.own.clear();
        if let Some(numbers) = self.rows.get(row as usize) {
            self.own.extend_from_slice(numbers.as_slice())?;
        }
        let Some((column, number)) = rarest(self.own.as_slice(), &self.columns) else {
            return Ok(false);
        };
        let pivot = Pivot {
            row,
            column,
            inverse: inverse(number),
        };
        self.pivots.push(pivot)?;
        put_at(self.is_done.as_mut_slice(), pivot.row as usize, true);
        for item in &self.own {
            self.columns.lose(item.0);
        }
        if self.columns.count(pivot.column) > 0 {
            self.take_out_all(pivot)?;
        }
        Ok(true)
    }

    /// Eliminates the rows of a square matrix; whether it is regular modulo the prime.
    pub(crate) fn eliminate(
        &mut self,
        alloc: Global,
        matrix: &[Vec<(u32, i64)>],
        size: usize,
    ) -> Result<bool, AllocError> {
        self.take(alloc, matrix, size)?;
        for _ in 0..size {
            if !self.advance()? {
                return Ok(false);
            }
        }
        Ok(true)
    }

    /// The numbers of a row; none where there is no such row.
    fn row(&self, number: u32) -> &[(u32, u64)] {
        match self.rows.get(number as usize) {
            Some(row) => row.as_slice(),
            None => &[],
        }
    }

    /// The value of the column of a pivot where those of the later ones are known.
    fn value(&self, pivot: Pivot, right: u64, values: &[u64]) -> u64 {
        let mut left = right;
        for item in self.row(pivot.row) {
            if item.0 != pivot.column {
                let value = item_at(values, item.0 as usize, 0);
                left = minus(left, times(item.1, value));
            }
        }
        times(left, pivot.inverse)
    }

    /// Solves the rows for right sides, which change.
    pub(crate) fn solve(&self, right: &mut [u64], values: &mut [u64]) {
        for operation in &self.operations {
            let from = item_at(right, operation.from as usize, 0);
            if from != 0 {
                take_product(right, operation.row as usize, operation.factor, from);
            }
        }
        self.solve_back(right, values);
    }

    /// Solves the eliminated rows, the last first.
    fn solve_back(&self, right: &[u64], values: &mut [u64]) {
        let count = self.pivots.len();
        for later in 0..count {
            if let Some(pivot) = self.pivots.get(count - 1 - later) {
                let value = self.value(*pivot, item_at(right, pivot.row as usize, 0), values);
                put_at(values, pivot.column as usize, value);
            }
        }
    }

    /// Takes a multiple of a solved row off the costs.
    fn take_row(&self, pivot: Pivot, factor: u64, costs: &mut [u64]) {
        for item in self.row(pivot.row) {
            if item.0 != pivot.column {
                take_product(costs, item.0 as usize, item.1, factor);
            }
        }
    }

    /// Solves the columns for costs, which change: the multipliers of the rows.
    pub(crate) fn solve_turned(&self, costs: &mut [u64], multipliers: &mut [u64]) {
        for pivot in &self.pivots {
            let factor = times(item_at(costs, pivot.column as usize, 0), pivot.inverse);
            if factor != 0 {
                put_at(multipliers, pivot.row as usize, factor);
                self.take_row(*pivot, factor, costs);
            }
        }
        self.turn_back(multipliers);
    }

    /// Carries the multipliers of eliminated rows over to the rows as they were.
    fn turn_back(&self, multipliers: &mut [u64]) {
        let count = self.operations.len();
        for later in 0..count {
            if let Some(operation) = self.operations.get(count - 1 - later) {
                let own = item_at(multipliers, operation.row as usize, 0);
                let from = operation.from as usize;
                if own != 0 {
                    take_product(multipliers, from, operation.factor, own);
                }
            }
        }
    }
}
