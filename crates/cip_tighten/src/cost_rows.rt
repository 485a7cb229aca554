//! The rows of a linear program's bound, added up with the cutoff row: minus the reduced costs.
use crate::tight::{row_of, short};
use cip_frac::Frac;
use cip_lin::{Combo, Row, RowFault, RowId, RowMultiple, Term};
use cip_plugin::View;
use std::alloc::{AllocError, Global};

/// Rows with their factors, and their sum by column.
#[derive(Drop)]
pub(crate) struct CostRow {
    pub(crate) rows: Vec<RowMultiple>,
    sums: Vec<Frac>,
    right: Frac,
}

/// Adds these coefficients to a row.
fn append_all(row: &mut Row, sums: &[Frac]) -> Result<(), RowFault> {
    for (place, sum) in sums.iter().enumerate() {
        if !sum.is_zero() {
            row.append(Term {
                col: short(place),
                coef: *sum,
            })?;
        }
    }
    Ok(())
}

impl CostRow {
    /// No row. It takes no memory.
    pub(crate) fn new(alloc: Global) -> CostRow {
        CostRow {
            rows: Vec::new(alloc),
            sums: Vec::new(alloc),
            right: Frac::zero(),
        }
    }

    /// Adds a multiple of a row to the sum, and answers whether it has the side and stayed in range.
    fn add(&mut self, row: &Row, factor: Frac) -> bool {
        let side = if factor.is_negative() {
            row.high()
        } else {
            row.low()
        };
        let Some(side) = side else {
            return false;
        };
        for term in row.terms() {
            let Some(sum) = self.sums.get_mut(term.col as usize) else {
                return false;
            };
            if !sum.add_product(&factor, &term.coef) {
                return false;
            }
        }
        self.right.add_product(&factor, &side)
    }

    /// The rows of a combination without the cutoff row, added up with that by -1; none where one isn't there or has no
    /// side, or the sum leaves the range. `Err` where memory was refused.
    pub(crate) fn take(
        &mut self,
        alloc: Global,
        view: &View<'_>,
        combo: &Combo,
        cutoff: &Row,
    ) -> Result<Option<Row>, AllocError> {
        let factor = Frac::one().neg();
        self.rows.clear();
        self.rows.extend_from_slice(combo.rows.as_slice())?;
        self.rows.push(RowMultiple {
            row: RowId::Cutoff,
            factor,
        })?;
        self.sums.clear();
        self.sums.resize(view.costs.len(), Frac::zero())?;
        self.right = Frac::zero();
        let mut is_kept = true;
        for multiple in &combo.rows {
            is_kept = match row_of(view, multiple.row) {
                Some(row) => self.add(row, multiple.factor),
                None => false,
            };
            if !is_kept {
                break;
            }
        }
        if !is_kept || !self.add(cutoff, factor) {
            return Ok(None);
        }
        let mut row = Row::empty(alloc, Some(self.right), None);
        match append_all(&mut row, self.sums.as_slice()) {
            Ok(()) => Ok(Some(row)),
            Err(fault) => {
                drop(row);
                match fault {
                    RowFault::NoMemory => Err(AllocError),
                    _ => Ok(None),
                }
            }
        }
    }
}
