//! The classes of rows.
use cip_frac::Frac;
use cip_lin::{Row, Sides};
use cip_plugin::View;
use cip_tighten::short;
use std::alloc::AllocError;

/// A class of rows. Each row is in one.
#[derive(Clone, Copy, PartialEq, Eq)]
pub enum Class {
    /// The rows of no other class.
    Linear,
    /// A row with one side, whose coefficients are above 0 and stand on whole columns.
    Knapsack,
    /// A row with a high side alone, which is above 0, and is the coefficient of each of its columns; these are whole
    /// and have the sides 0 and 1.
    SetPack,
    /// The same with both sides, which are equal.
    SetPart,
}

/// Whether each column of a row is whole and has the sides 0 and 1 at the root, and all have this coefficient, which is
/// above 0.
fn is_choice(view: &View<'_>, row: &Row, coef: Frac) -> bool {
    let unit = Sides {
        low: Some(Frac::zero()),
        high: Some(Frac::one()),
    };
    for term in row.terms() {
        let column = term.col as usize;
        if term.coef != coef
            || view.whole.get(column) != Some(&true)
            || view.root.as_slice().get(column) != Some(&unit)
        {
            return false;
        }
    }
    coef.is_positive()
}

/// Whether each coefficient of a row is above 0 and stands on a whole column.
fn is_positive(view: &View<'_>, row: &Row) -> bool {
    for term in row.terms() {
        if !term.coef.is_positive() || view.whole.get(term.col as usize) != Some(&true) {
            return false;
        }
    }
    true
}

/// The class of a row.
fn class_of(view: &View<'_>, row: &Row) -> Class {
    let (low, high) = (row.low(), row.high());
    let is_choice = match high {
        Some(most) => (low.is_none() || low == high) && is_choice(view, row, most),
        None => false,
    };
    if is_choice && low.is_none() {
        Class::SetPack
    } else if is_choice {
        Class::SetPart
    } else if low.is_some() != high.is_some() && is_positive(view, row) {
        Class::Knapsack
    } else {
        Class::Linear
    }
}

/// Lists the rows of a class by their numbers.
pub(crate) fn list_rows(
    view: &View<'_>,
    class: Class,
    numbers: &mut Vec<u32>,
) -> Result<(), AllocError> {
    numbers.clear();
    for (number, row) in view.own.iter().enumerate() {
        if class_of(view, row) == class {
            numbers.push(short(number))?;
        }
    }
    Ok(())
}
