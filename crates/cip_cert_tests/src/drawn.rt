//! Rows, boxes and combinations that look random, with all that can be wrong with them.
use crate::asked::Asked;
use crate::draws::{Draws, Numbers};
use cip_cert::Scratch;
use cip_frac::Frac;
use cip_lin::{
    Bounds, ColumnMultiple, Combo, Row, RowFault, RowId, RowMultiple, Side, Sides, Term,
};
use std::alloc::{AllocError, Global};

/// A side, once in 8 times open.
fn side(draws: &mut Draws, numbers: Numbers) -> Option<Frac> {
    if draws.once_in(8) {
        None
    } else {
        Some(draws.number(numbers))
    }
}

/// Appends the terms of a row over so many columns, with one on half of them or so.
fn fill_row(
    draws: &mut Draws,
    numbers: Numbers,
    columns: u32,
    row: &mut Row,
) -> Result<(), RowFault> {
    for col in 0..columns {
        let coef = draws.number(numbers);
        if draws.once_in(2) && !coef.is_zero() {
            row.append(Term { col, coef })?;
        }
    }
    Ok(())
}

/// A row over so many columns.
fn row(alloc: Global, draws: &mut Draws, numbers: Numbers, columns: u32) -> Option<Row> {
    let low = side(draws, numbers);
    let high = side(draws, numbers);
    let mut row = Row::empty(alloc, low, high);
    if fill_row(draws, numbers, columns, &mut row).is_err() {
        drop(row);
        return None;
    }
    Some(row)
}

/// Sides of a column, the high one mostly above the low one.
fn sides(draws: &mut Draws, numbers: Numbers) -> Sides {
    let low = side(draws, numbers);
    let more = draws.number(numbers).abs();
    if draws.once_in(8) {
        return Sides { low, high: None };
    }
    let high = match low {
        None => more,
        Some(low) => match low.add(more) {
            Ok(high) => high,
            Err(_) => low,
        },
    };
    Sides {
        low,
        high: Some(high),
    }
}

/// Appends sides of so many columns to a box.
fn fill_bounds(
    draws: &mut Draws,
    numbers: Numbers,
    columns: u32,
    bounds: &mut Bounds,
) -> Result<(), AllocError> {
    for _ in 0..columns {
        bounds.push(sides(draws, numbers))?;
    }
    Ok(())
}

/// The same sides, sometimes without the high one, or without both.
fn widened(draws: &mut Draws, own: Sides) -> Sides {
    match draws.below(6) {
        0 => Sides::open(),
        1 => Sides {
            low: own.low,
            high: None,
        },
        _ => own,
    }
}

/// Fills an empty box with the same sides as another one, some open; once in 4 times one column has others.
fn fill_scope(draws: &mut Draws, bounds: &Bounds, scope: &mut Bounds) -> Result<(), AllocError> {
    for own in bounds.as_slice() {
        scope.push(widened(draws, *own))?;
    }
    if draws.once_in(4) && scope.len() > 0 {
        scope.set_sides(0, sides(draws, Numbers::Whole));
    }
    Ok(())
}

/// Draws coefficients on so many columns, half of them 0 or so.
fn fill_coefficients(draws: &mut Draws, numbers: Numbers, columns: u32, scratch: &mut Scratch) {
    for column in 0..columns {
        if draws.once_in(2) && (column as usize) < scratch.row.entries().len() {
            scratch.row.set(column, draws.number(numbers));
        }
    }
}

/// Adds a row to the pool, where it fits; `false` where there is no memory.
fn is_added(
    draws: &mut Draws,
    numbers: Numbers,
    row: &Scratch,
    scope: &Bounds,
    asked: &mut Asked,
) -> bool {
    let columns = asked.pool.columns();
    if row.row.entries().len() != columns || scope.len() != columns {
        return true;
    }
    let least = draws.number(numbers);
    asked.pool.add(row, least, scope, false).is_ok()
}

/// Draws a scope for a row, and adds that to the pool.
fn add_scoped(
    alloc: Global,
    draws: &mut Draws,
    numbers: Numbers,
    row: &Scratch,
    asked: &mut Asked,
) -> bool {
    match Bounds::new(alloc, 0) {
        Ok(mut scope) => {
            let is_so = fill_scope(draws, &asked.bounds, &mut scope).is_ok()
                && is_added(draws, numbers, row, &scope, asked);
            drop(scope);
            is_so
        }
        Err(_) => false,
    }
}

/// Draws a row, and adds it to the pool.
fn add_row(alloc: Global, draws: &mut Draws, numbers: Numbers, asked: &mut Asked) -> bool {
    let columns = asked.bounds.len().min(64);
    match Scratch::new(alloc, columns) {
        Ok(mut row) => {
            fill_coefficients(draws, numbers, columns as u32, &mut row);
            let is_so = add_scoped(alloc, draws, numbers, &row, asked);
            drop(row);
            is_so
        }
        Err(_) => false,
    }
}

/// The name of a row: of one of the first five of the program, of one of the first four of the pool, or the cutoff row.
fn name(draws: &mut Draws) -> RowId {
    match draws.below(10) {
        0 => RowId::Cutoff,
        1..=3 => RowId::Pool(u64::from(draws.below(4))),
        4 => RowId::Own(draws.below(5)),
        _ => RowId::Own(draws.below(3)),
    }
}

/// Adds up to three rows to a combination.
fn add_rows(draws: &mut Draws, numbers: Numbers, combo: &mut Combo) -> Result<(), AllocError> {
    for _ in 0..draws.below(4) {
        let is_positive = draws.once_in(2);
        let factor = draws.signed(numbers, is_positive);
        let row = name(draws);
        combo.rows.push(RowMultiple { row, factor })?;
    }
    Ok(())
}

/// Adds up to two sides of columns to a list.
fn add_columns(
    draws: &mut Draws,
    numbers: Numbers,
    columns: u32,
    is_low: bool,
    list: &mut Vec<ColumnMultiple>,
) -> Result<(), AllocError> {
    for _ in 0..draws.below(3) {
        let factor = draws.signed(numbers, is_low);
        let col = if draws.once_in(20) {
            columns
        } else {
            draws.below(columns.max(1))
        };
        list.push(ColumnMultiple { col, factor })?;
    }
    Ok(())
}

/// Adds low sides until a combination has as many entries as are allowed, or one more.
fn lengthen(draws: &mut Draws, combo: &mut Combo) -> Result<(), AllocError> {
    let count = 4_095_usize.saturating_sub(combo.rows.len());
    let count = count.saturating_sub(combo.highs.len());
    let count = count.saturating_sub(combo.lows.len());
    let more = if draws.once_in(2) { 1 } else { 2 };
    for _ in 0..count + more {
        combo.lows.push(ColumnMultiple {
            col: 0,
            factor: Frac::one(),
        })?;
    }
    Ok(())
}

/// Fills an empty combination.
fn fill_combo(
    draws: &mut Draws,
    numbers: Numbers,
    columns: u32,
    combo: &mut Combo,
) -> Result<(), AllocError> {
    add_rows(draws, numbers, combo)?;
    add_columns(draws, numbers, columns, true, &mut combo.lows)?;
    add_columns(draws, numbers, columns, false, &mut combo.highs)?;
    if draws.once_in(60) {
        lengthen(draws, combo)?;
    }
    Ok(())
}

/// Adds a row of the program.
fn add_own(
    alloc: Global,
    draws: &mut Draws,
    numbers: Numbers,
    columns: u32,
    own: &mut Vec<Row>,
) -> bool {
    match row(alloc, draws, numbers, columns) {
        Some(row) => own.push(row).is_ok(),
        None => false,
    }
}

/// Puts rows of the program and a cutoff row in, which is left out once in 6 times.
fn put_rows(
    alloc: Global,
    draws: &mut Draws,
    numbers: Numbers,
    columns: u32,
    asked: &mut Asked,
) -> bool {
    for _ in 0..2 + draws.below(3) {
        if !add_own(alloc, draws, numbers, columns, &mut asked.own) {
            return false;
        }
    }
    if !draws.once_in(6) {
        asked.cutoff = row(alloc, draws, numbers, columns);
    }
    true
}

/// Puts rows of the pool in, the second of which is taken out again once in 3 times.
fn put_pool(alloc: Global, draws: &mut Draws, numbers: Numbers, asked: &mut Asked) -> bool {
    for _ in 0..3 + draws.below(2) {
        if !add_row(alloc, draws, numbers, asked) {
            return false;
        }
    }
    if draws.once_in(3) {
        asked.pool.retire(1);
    }
    true
}

/// Puts in what is asked of the combination.
fn put_questions(
    draws: &mut Draws,
    numbers: Numbers,
    columns: u32,
    asked: &mut Asked,
) -> Result<(), AllocError> {
    for _ in 0..columns {
        asked.costs.push(draws.number(numbers))?;
        asked.whole.push(!draws.once_in(6))?;
    }
    asked.round = draws.once_in(2);
    asked.column = draws.below(columns.max(1));
    asked.side = if draws.once_in(2) {
        Side::Low
    } else {
        Side::High
    };
    asked.value = draws.number(numbers);
    Ok(())
}

/// How many columns a case has, from one to five, and its numbers.
pub fn shape(draws: &mut Draws) -> (u32, Numbers) {
    let numbers = match draws.below(4) {
        0 => Numbers::Wild,
        1 => Numbers::Mixed,
        _ => Numbers::Whole,
    };
    (1 + draws.below(5), numbers)
}

/// Fills an empty case over so many columns.
pub fn is_drawn(
    alloc: Global,
    draws: &mut Draws,
    numbers: Numbers,
    columns: u32,
    asked: &mut Asked,
) -> bool {
    fill_bounds(draws, numbers, columns, &mut asked.bounds).is_ok()
        && fill_combo(draws, numbers, columns, &mut asked.combo).is_ok()
        && put_rows(alloc, draws, numbers, columns, asked)
        && put_pool(alloc, draws, numbers, asked)
        && put_questions(draws, numbers, columns, asked).is_ok()
}
