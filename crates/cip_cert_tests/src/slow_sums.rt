//! The sum of a combination, formed from whole rows, one column after another.
use crate::asked::Asked;
use cip_cert::{CutFault, FaultPlace};
use cip_frac::Frac;
use cip_lin::{ColumnMultiple, Row, RowId, RowMultiple, Sides};
use std::alloc::{AllocError, Global};

/// The most entries of a combination.
const MOST: usize = 4096;

/// What a part is a multiple of.
#[derive(Clone, Copy)]
enum Name {
    Row(RowId),
    Column(u32),
}

/// A factor, the row or the column whose side it is of, and the side that is used.
#[derive(Clone, Copy)]
struct Part {
    factor: Frac,
    name: Name,
    side: Frac,
}

/// The sum of a combination, or why there is none; then the rest counts for nothing.
#[derive(Drop)]
pub struct Sum {
    pub coefficients: Vec<Frac>,
    pub least: Frac,
    pub fault: Option<CutFault>,
}

/// Whether sides are met by those of another column.
fn is_met(sides: Sides, outer: Sides) -> bool {
    let low = match (sides.low, outer.low) {
        (_, None) => true,
        (Some(own), Some(low)) => own >= low,
        _ => false,
    };
    let high = match (sides.high, outer.high) {
        (_, None) => true,
        (Some(own), Some(high)) => own <= high,
        _ => false,
    };
    low && high
}

/// Whether a box lies inside another one.
fn is_inside(own: &[Sides], outer: &[Sides]) -> bool {
    if own.len() != outer.len() {
        return false;
    }
    for at in 0..own.len() {
        if !is_met(own[at], outer[at]) {
            return false;
        }
    }
    true
}

/// The row of the pool with an id, if the box lies in its scope.
fn pool_row(asked: &Asked, entry: usize, id: u64) -> Result<&Row, CutFault> {
    for kept in asked.pool.rows() {
        if kept.id == id {
            return if is_inside(asked.bounds.as_slice(), kept.scope.as_slice()) {
                Ok(&kept.row)
            } else {
                Err(CutFault::NotInScope { entry })
            };
        }
    }
    Err(CutFault::UnknownRow { entry })
}

/// The row that an entry names.
fn named(asked: &Asked, entry: usize, name: RowId) -> Result<&Row, CutFault> {
    let row = match name {
        RowId::Own(number) => asked.own.get(number as usize),
        RowId::Cutoff => asked.cutoff.as_ref(),
        RowId::Pool(id) => return pool_row(asked, entry, id),
    };
    match row {
        Some(row) => Ok(row),
        None => Err(CutFault::UnknownRow { entry }),
    }
}

/// The side that a factor of a row uses.
fn side_of(row: &Row, entry: usize, factor: Frac) -> Result<Frac, CutFault> {
    if factor == Frac::zero() {
        return Err(CutFault::WrongSign { entry });
    }
    let side = if factor > Frac::zero() {
        row.low()
    } else {
        row.high()
    };
    match side {
        Some(side) => Ok(side),
        None => Err(CutFault::NoSide {
            place: FaultPlace::Entry(entry),
        }),
    }
}

/// Whether the factor of a low side is positive, or that of a high side negative.
fn has_sign_of_side(factor: Frac, is_low: bool) -> bool {
    if is_low {
        factor > Frac::zero()
    } else {
        factor < Frac::zero()
    }
}

/// The side of a column that an entry uses, where its factor has this sign.
fn column_side(
    asked: &Asked,
    entry: usize,
    column: u32,
    has_sign: bool,
    is_low: bool,
) -> Result<Frac, CutFault> {
    let sides = match asked.bounds.as_slice().get(column as usize) {
        Some(sides) => *sides,
        None => return Err(CutFault::UnknownColumn { entry }),
    };
    if !has_sign {
        return Err(CutFault::WrongSign { entry });
    }
    match if is_low { sides.low } else { sides.high } {
        Some(side) => Ok(side),
        None => Err(CutFault::NoSide {
            place: FaultPlace::Entry(entry),
        }),
    }
}

/// The part of a row, or why it is none.
fn row_part(asked: &Asked, entry: usize, multiple: RowMultiple) -> Result<Part, CutFault> {
    let row = named(asked, entry, multiple.row)?;
    let side = side_of(row, entry, multiple.factor)?;
    Ok(Part {
        factor: multiple.factor,
        name: Name::Row(multiple.row),
        side,
    })
}

/// The part of a column's side, or why it is none.
fn column_part(
    asked: &Asked,
    entry: usize,
    multiple: ColumnMultiple,
    is_low: bool,
) -> Result<Part, CutFault> {
    let factor = multiple.factor;
    let has_sign = has_sign_of_side(factor, is_low);
    match column_side(asked, entry, multiple.col, has_sign, is_low) {
        Ok(side) => Ok(Part {
            factor,
            name: Name::Column(multiple.col),
            side,
        }),
        Err(fault) => Err(fault),
    }
}

/// Puts a part at the end, or answers why it is none.
fn put(
    parts: &mut Vec<Part>,
    part: Result<Part, CutFault>,
) -> Result<Option<CutFault>, AllocError> {
    match part {
        Ok(part) => {
            parts.push(part)?;
            Ok(None)
        }
        Err(fault) => Ok(Some(fault)),
    }
}

/// Puts the parts of the rows into the list, up to the first that is none.
fn put_rows(asked: &Asked, parts: &mut Vec<Part>) -> Result<Option<CutFault>, AllocError> {
    for multiple in &asked.combo.rows {
        let entry = parts.len();
        let fault = put(parts, row_part(asked, entry, *multiple))?;
        if fault.is_some() {
            return Ok(fault);
        }
    }
    Ok(None)
}

/// The same for low or for high sides.
fn put_columns(
    asked: &Asked,
    parts: &mut Vec<Part>,
    is_low: bool,
) -> Result<Option<CutFault>, AllocError> {
    let multiples = if is_low {
        asked.combo.lows.as_slice()
    } else {
        asked.combo.highs.as_slice()
    };
    for multiple in multiples {
        let entry = parts.len();
        let fault = put(parts, column_part(asked, entry, *multiple, is_low))?;
        if fault.is_some() {
            return Ok(fault);
        }
    }
    Ok(None)
}

/// Puts all parts into the list, up to the first that is none.
fn put_all(asked: &Asked, parts: &mut Vec<Part>) -> Result<Option<CutFault>, AllocError> {
    let fault = put_rows(asked, parts)?;
    if fault.is_some() {
        return Ok(fault);
    }
    let fault = put_columns(asked, parts, true)?;
    if fault.is_some() {
        return Ok(fault);
    }
    put_columns(asked, parts, false)
}

/// A sum with a product added, if neither overflows.
pub fn plus(sum: Frac, a: Frac, b: Frac) -> Option<Frac> {
    match a.mul(b) {
        Ok(product) => match sum.add(product) {
            Ok(value) => Some(value),
            Err(_) => None,
        },
        Err(_) => None,
    }
}

/// The coefficient of a row on a column.
fn row_coefficient(row: &Row, column: usize) -> Frac {
    for term in row.terms() {
        if term.col as usize == column {
            return term.coef;
        }
    }
    Frac::zero()
}

/// The coefficient of a part on a column.
fn coefficient(asked: &Asked, name: Name, column: usize) -> Frac {
    match name {
        Name::Column(own) if own as usize == column => Frac::one(),
        Name::Column(_) => Frac::zero(),
        Name::Row(name) => match named(asked, 0, name) {
            Ok(row) => row_coefficient(row, column),
            Err(_) => Frac::zero(),
        },
    }
}

/// What the factor of a part is multiplied with: its coefficient on a column, or its side where there is none.
fn number_of(asked: &Asked, part: Part, column: Option<usize>) -> Frac {
    match column {
        Some(column) => coefficient(asked, part.name, column),
        None => part.side,
    }
}

/// The sum of factors times coefficients on a column, or times sides where there is none, or the first part at which it
/// overflows.
fn column_sum(asked: &Asked, parts: &[Part], column: Option<usize>) -> Result<Frac, usize> {
    let mut sum = Frac::zero();
    for at in 0..parts.len() {
        let part = parts[at];
        match plus(sum, part.factor, number_of(asked, part, column)) {
            Some(value) => sum = value,
            None => return Err(at),
        }
    }
    Ok(sum)
}

/// The first part at which a column or the right side overflows.
fn first_overflow(asked: &Asked, parts: &[Part], columns: usize) -> Option<usize> {
    let mut first = column_sum(asked, parts, None).err();
    for column in 0..columns {
        if let Err(at) = column_sum(asked, parts, Some(column)) {
            match first {
                Some(earlier) if earlier <= at => {}
                _ => first = Some(at),
            }
        }
    }
    first
}

/// Appends the sums in all columns, 0 where one overflows.
fn put_sums(
    asked: &Asked,
    parts: &[Part],
    columns: usize,
    sums: &mut Vec<Frac>,
) -> Result<(), AllocError> {
    for column in 0..columns {
        match column_sum(asked, parts, Some(column)) {
            Ok(sum) => sums.push(sum)?,
            Err(_) => sums.push(Frac::zero())?,
        }
    }
    Ok(())
}

/// Whether a combination has too many entries.
fn is_too_long(asked: &Asked) -> bool {
    let bounds = asked
        .combo
        .lows
        .len()
        .saturating_add(asked.combo.highs.len());
    asked.combo.rows.len().saturating_add(bounds) > MOST
}

impl Sum {
    /// No column, and nothing in it.
    pub fn new(alloc: Global) -> Sum {
        Sum {
            coefficients: Vec::new(alloc),
            least: Frac::zero(),
            fault: None,
        }
    }
}

/// Puts the sum of these parts into one that is empty.
fn put_sum(
    asked: &Asked,
    parts: &[Part],
    fault: Option<CutFault>,
    sum: &mut Sum,
) -> Result<(), AllocError> {
    let columns = asked.bounds.len();
    sum.fault = match first_overflow(asked, parts, columns) {
        _ if is_too_long(asked) => Some(CutFault::TooLong),
        Some(at) => Some(CutFault::Wide {
            place: FaultPlace::Entry(at),
        }),
        None => fault,
    };
    if let Ok(least) = column_sum(asked, parts, None) {
        sum.least = least;
    }
    put_sums(asked, parts, columns, &mut sum.coefficients)
}

/// Puts the sum of a combination into one that is empty: an entry that can't be used comes after an overflow at an
/// earlier one.
pub fn is_summed(alloc: Global, asked: &Asked, sum: &mut Sum) -> bool {
    let mut parts = Vec::new(alloc);
    match put_all(asked, &mut parts) {
        Ok(fault) => put_sum(asked, parts.as_slice(), fault, sum).is_ok(),
        Err(_) => false,
    }
}
