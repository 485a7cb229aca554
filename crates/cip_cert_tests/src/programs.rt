//! Linear programs as lists, and as they are written down.
use crate::slow_check::Program;
use cip_frac::Frac;
use cip_lin::{Bounds, Row, Sides, Term};
use std::alloc::{AllocError, Global};

/// A low and a high side.
pub(crate) type Between = (Option<i64>, Option<i64>);

/// A row: its coefficients by column, what these and its sides are divided by, and its sides.
pub(crate) type Line = (&'static [i64], i64, Between);

/// A program: its rows, the sides of its columns, its costs and what they are divided by.
#[derive(Clone, Copy)]
pub(crate) struct Written {
    pub(crate) rows: &'static [Line],
    pub(crate) columns: &'static [Between],
    pub(crate) costs: &'static [i64],
    pub(crate) under: i64,
}

/// A column from 0 on.
pub(crate) const FROM_ZERO: Between = (Some(0), None);

/// The rows, the sides and the costs of a linear program.
#[derive(Drop)]
pub(crate) struct Posed {
    pub(crate) rows: Vec<Row>,
    pub(crate) bounds: Bounds,
    pub(crate) costs: Vec<Frac>,
}

impl Posed {
    /// No row and no column.
    pub(crate) fn new(alloc: Global) -> Result<Posed, AllocError> {
        let bounds = Bounds::new(alloc, 0)?;
        Ok(Posed {
            rows: Vec::new(alloc),
            bounds,
            costs: Vec::new(alloc),
        })
    }

    /// The program.
    pub(crate) fn program(&self) -> Program<'_> {
        Program {
            rows: self.rows.as_slice(),
            bounds: &self.bounds,
            costs: self.costs.as_slice(),
        }
    }
}

/// A fraction, or 0 where there is none.
pub(crate) fn fraction(over: i64, under: i64) -> Frac {
    match Frac::new(over as i128, under as i128) {
        Ok(value) => value,
        Err(_) => Frac::zero(),
    }
}

fn side(number: Option<i64>, under: i64) -> Option<Frac> {
    match number {
        Some(number) => Some(fraction(number, under)),
        None => None,
    }
}

/// Appends the terms of a row.
fn put_terms(row: &mut Row, coefficients: &[i64], under: i64) -> bool {
    let mut col = 0u32;
    for coefficient in coefficients {
        let coef = fraction(*coefficient, under);
        if !coef.is_zero() && row.append(Term { col, coef }).is_err() {
            return false;
        }
        col = col.wrapping_add(1);
    }
    true
}

fn put_rows(alloc: Global, posed: &mut Posed, lines: &[Line]) -> bool {
    for (coefficients, under, (low, high)) in lines {
        let mut row = Row::empty(alloc, side(*low, *under), side(*high, *under));
        if !put_terms(&mut row, coefficients, *under) {
            drop(row);
            return false;
        }
        if posed.rows.push(row).is_err() {
            return false;
        }
    }
    true
}

fn put_columns(posed: &mut Posed, written: &Written) -> Result<(), AllocError> {
    for (low, high) in written.columns {
        posed.bounds.push(Sides {
            low: side(*low, 1),
            high: side(*high, 1),
        })?;
    }
    for cost in written.costs {
        posed.costs.push(fraction(*cost, written.under))?;
    }
    Ok(())
}

/// Puts a program that is written into an empty one.
fn is_put(alloc: Global, posed: &mut Posed, written: &Written) -> bool {
    put_rows(alloc, posed, written.rows) && put_columns(posed, written).is_ok()
}

/// The program that is written; none where a row is none, or memory was refused.
pub(crate) fn pose(alloc: Global, written: &Written) -> Option<Posed> {
    match Posed::new(alloc) {
        Ok(mut posed) => {
            if is_put(alloc, &mut posed, written) {
                Some(posed)
            } else {
                drop(posed);
                None
            }
        }
        Err(_) => None,
    }
}
