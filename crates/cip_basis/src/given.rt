//! A linear program, lent to be guessed at.
use crate::lists::item_at;
use cip_lin::{Bounds, Frac, Row, Sides};

/// A linear program: rows, others behind them, the sides of each column, and what each column costs. Nothing is copied,
/// and nothing is asked of it: what is missing counts as 0 or as open.
#[derive(Clone, Copy)]
pub struct Given<'a> {
    /// The rows that stay.
    pub own: &'a [Row],
    /// The rows behind them.
    pub others: &'a [&'a Row],
    /// The names of those, by which they are known again.
    pub ids: &'a [u64],
    /// The sides of the columns.
    pub bounds: &'a Bounds,
    /// What each column costs.
    pub costs: &'a [Frac],
}

impl<'a> Given<'a> {
    /// The number of columns.
    pub fn columns(&self) -> usize {
        self.bounds.len()
    }

    /// The number of rows.
    pub fn rows(&self) -> usize {
        self.own.len().saturating_add(self.others.len())
    }

    /// A row, by its number.
    pub fn row(&self, number: usize) -> Option<&'a Row> {
        match self.own.get(number) {
            Some(row) => Some(row),
            None => self
                .others
                .get(number.wrapping_sub(self.own.len()))
                .copied(),
        }
    }

    /// The sides of a variable: of a column, or of the row behind the columns.
    pub fn sides(&self, variable: usize) -> Sides {
        let columns = self.bounds.as_slice();
        if let Some(sides) = columns.get(variable) {
            return *sides;
        }
        match self.row(variable.wrapping_sub(columns.len())) {
            Some(row) => Sides {
                low: row.low(),
                high: row.high(),
            },
            None => Sides::open(),
        }
    }

    /// What a column costs.
    pub fn cost(&self, column: usize) -> Frac {
        item_at(self.costs, column, Frac::zero())
    }
}

/// A number of a column, a row or a variable, of which there are fewer than 2^32.
pub(crate) fn number_of(place: usize) -> u32 {
    u32::try_from(place).unwrap_or(u32::MAX)
}
