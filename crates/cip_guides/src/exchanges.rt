//! A point in work that keeps the rows of a program, and moves of its columns.
use crate::coefficients::{coefficient, reach, room, sides_of};
use cip_frac::Frac;
use cip_lin::Row;
use cip_plugin::View;
use cip_tighten::{ColumnRows, activity};
use std::alloc::{AllocError, Global};

/// A point, and what each row comes to at it.
#[derive(Drop)]
pub(crate) struct Placed {
    pub(crate) columns: ColumnRows,
    pub(crate) values: Vec<Frac>,
    activities: Vec<Frac>,
}

impl Placed {
    /// No point. It takes no memory.
    pub(crate) fn new(alloc: Global) -> Placed {
        Placed {
            columns: ColumnRows::new(alloc),
            values: Vec::new(alloc),
            activities: Vec::new(alloc),
        }
    }

    /// Takes a point, and answers whether no row leaves the range at it.
    pub(crate) fn place(&mut self, own: &[Row], point: &[Frac]) -> Result<bool, AllocError> {
        self.values.clear();
        self.values.extend_from_slice(point)?;
        self.activities.clear();
        for row in own {
            let Some(sum) = activity(row.terms(), point) else {
                return Ok(false);
            };
            self.activities.push(sum)?;
        }
        Ok(true)
    }

    /// How many rows a column has.
    pub(crate) fn count(&self, col: u32) -> usize {
        self.columns.rows_of(col).len()
    }

    /// A row of a column by its place, what it comes to, and the column's coefficient.
    pub(crate) fn row_at<'a>(
        &self,
        own: &'a [Row],
        col: u32,
        place: usize,
    ) -> Option<(&'a Row, Frac, Frac)> {
        let number = *self.columns.rows_of(col).get(place)? as usize;
        let (Some(row), Some(sum)) = (own.get(number), self.activities.get(number)) else {
            return None;
        };
        match coefficient(row, col) {
            Some(coef) => Some((row, *sum, coef)),
            None => None,
        }
    }

    /// How far a column may go on, with the place of the first of its rows that keeps it from going farther, where one
    /// does; none where it may go without end.
    pub(crate) fn reach(
        &self,
        view: &View<'_>,
        col: u32,
        is_up: bool,
    ) -> Option<(Frac, Option<usize>)> {
        let column = col as usize;
        let mut least = match (view.root.as_slice().get(column), self.values.get(column)) {
            (Some(sides), Some(value)) => room(*sides, *value, is_up),
            _ => None,
        };
        let mut kept_by = None;
        for place in 0..self.count(col) {
            let reach = match self.row_at(view.own, col, place) {
                Some((row, sum, coef)) => reach(row, sum, coef, is_up),
                None => None,
            };
            if let Some(other) = reach {
                let is_nearer = match least {
                    Some(most) => other < most,
                    None => true,
                };
                if is_nearer {
                    least = Some(other);
                    kept_by = Some(place);
                }
            }
        }
        Some((least?, kept_by))
    }

    /// Moves a column by so much, and answers whether nothing left the range; else it is of no use until a point is
    /// taken.
    pub(crate) fn go(&mut self, own: &[Row], col: u32, by: Frac) -> bool {
        let Some(value) = self.values.get_mut(col as usize) else {
            return false;
        };
        if !value.add_assign(by) {
            return false;
        }
        for number in self.columns.rows_of(col) {
            let Some(row) = own.get(*number as usize) else {
                return false;
            };
            let Some(sum) = self.activities.get_mut(*number as usize) else {
                return false;
            };
            let coef = coefficient(row, col).unwrap_or(Frac::zero());
            if !sum.add_product(&coef, &by) {
                return false;
            }
        }
        true
    }

    /// Whether the rows of a column are kept, and its own sides.
    pub(crate) fn keeps(&self, view: &View<'_>, col: u32) -> bool {
        let column = col as usize;
        match (view.root.as_slice().get(column), self.values.get(column)) {
            (Some(sides), Some(value)) if sides.contains(*value) => {}
            _ => return false,
        }
        for place in 0..self.count(col) {
            match self.row_at(view.own, col, place) {
                Some((row, sum, _)) if sides_of(row).contains(sum) => {}
                _ => return false,
            }
        }
        true
    }
}
