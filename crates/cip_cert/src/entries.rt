//! Entries of a combination, added to a row of coefficients.
ghost use Rattle.std.specs.Prelude.{◌≡◌, ◌+◌, ◌≤◌, length, Ok, Err, MatchResult, All};
ghost use Rattle.cip_problem.specs.Activity.{StandsBelow};
ghost use Rattle.cip_cert.specs.Pool.{pool_row, AreRising};
ghost use Rattle.cip_cert.specs.Lent.{lent_of, KeptFits, Fits};
ghost use Rattle.cip_cert.specs.Checks.{chain, in_scope, named_row, add_part, row_part, add_row, add_low, add_high, add_rows, add_lows, add_highs};
ghost use Rattle.cip_node_rules.specs.RowRules.{most_multiples};

use crate::faults::CutFault;
use crate::lookup::pool_place;
use crate::parts::add_part;
use crate::rows::{PoolRow, Rows};
use crate::sparse::SparseRow;
use cip_frac::Frac;
use cip_lin::{Bounds, ColumnMultiple, Row, RowId, RowMultiple, Term};

/// Adds a multiple of a row, and answers the right side.
fn add_multiple(
    entry: usize,
    factor: Frac,
    named: &Row,
    least: Frac,
    row: &mut SparseRow,
) -> Result<Frac, CutFault>
    requires { StandsBelow (length row.old.entries) named.now.terms }
    ensures steps { MatchResult result
        (λ more. chain (row_part entry factor named.now)
        (add_part entry (record { coefficients = row.old.entries; least = least }))
        ≡ Ok (record { coefficients = row.new.entries; least = more }))
        (λ fault. chain (row_part entry factor named.now)
        (add_part entry (record { coefficients = row.old.entries; least = least })) ≡ Err fault) }
    ensures columns { length row.new.entries ≡ length row.old.entries }
{
    if factor.is_positive() {
        add_part(entry, factor, named.terms(), named.low(), least, row)
    } else if factor.is_negative() {
        add_part(entry, factor, named.terms(), named.high(), least, row)
    } else {
        Err(CutFault::WrongSign { entry })
    }
}

/// The row of the pool with an id, if the box lies in its scope.
fn kept_row<'a>(
    pool: &'a [PoolRow],
    bounds: &Bounds,
    entry: usize,
    id: u64,
) -> Result<&'a Row, CutFault>
    requires rising { AreRising pool.now }
    requires fits { All (KeptFits (length bounds.now)) pool.now }
    ensures { MatchResult result
        (λ row. (in_scope entry bounds.now (pool_row pool.now id) ≡ Ok row.now)
        × StandsBelow (length bounds.now) row.now.terms)
        (λ fault. in_scope entry bounds.now (pool_row pool.now id) ≡ Err fault) }
{
    let Some(place) = pool_place(pool, id) else {
        return Err(CutFault::UnknownRow { entry });
    };
    let kept = &pool[place];
    if !bounds.inside(&kept.scope) {
        return Err(CutFault::NotInScope { entry });
    }
    Ok(&kept.row)
}

/// The row that an entry names.
fn named_row<'a>(
    rows: &Rows<'a>,
    bounds: &Bounds,
    entry: usize,
    name: RowId,
) -> Result<&'a Row, CutFault>
    requires { Fits (length bounds.now) (lent_of rows.now) }
    ensures { MatchResult result
        (λ row. (named_row (lent_of rows.now) bounds.now entry name ≡ Ok row.now)
        × StandsBelow (length bounds.now) row.now.terms)
        (λ fault. named_row (lent_of rows.now) bounds.now entry name ≡ Err fault) }
{
    match name {
        RowId::Own(number) => match rows.own.get(number as usize) {
            Some(row) => Ok(row),
            None => Err(CutFault::UnknownRow { entry }),
        },
        RowId::Pool(id) => kept_row(rows.pool, bounds, entry, id),
        RowId::Cutoff => match rows.cutoff {
            Some(row) => Ok(row),
            None => Err(CutFault::UnknownRow { entry }),
        },
    }
}

/// Adds an entry that names a row.
fn add_row(
    rows: &Rows<'_>,
    bounds: &Bounds,
    entry: usize,
    multiple: RowMultiple,
    least: Frac,
    row: &mut SparseRow,
) -> Result<Frac, CutFault>
    requires fits { Fits (length bounds.now) (lent_of rows.now) }
    requires room { length bounds.now ≤ length row.old.entries }
    ensures steps { MatchResult result
        (λ more. add_row (lent_of rows.entry.now) bounds.now entry multiple
        (record { coefficients = row.old.entries; least = least })
        ≡ Ok (record { coefficients = row.new.entries; least = more }))
        (λ fault. add_row (lent_of rows.entry.now) bounds.now entry multiple
        (record { coefficients = row.old.entries; least = least }) ≡ Err fault) }
    ensures columns { length row.new.entries ≡ length row.old.entries }
{
    match named_row(rows, bounds, entry, multiple.row) {
        Ok(named) => add_multiple(entry, multiple.factor, named, least, row),
        Err(fault) => Err(fault),
    }
}

/// Adds an entry that names the low side of a column.
fn add_low(
    bounds: &Bounds,
    entry: usize,
    multiple: ColumnMultiple,
    least: Frac,
    row: &mut SparseRow,
) -> Result<Frac, CutFault>
    requires { length bounds.now ≤ length row.old.entries }
    ensures steps { MatchResult result
        (λ more. add_low bounds.now entry multiple (record { coefficients = row.old.entries; least = least })
        ≡ Ok (record { coefficients = row.new.entries; least = more }))
        (λ fault. add_low bounds.now entry multiple (record { coefficients = row.old.entries; least = least })
        ≡ Err fault) }
    ensures columns { length row.new.entries ≡ length row.old.entries }
{
    if multiple.col as usize >= bounds.len() {
        return Err(CutFault::UnknownColumn { entry });
    }
    if !multiple.factor.is_positive() {
        return Err(CutFault::WrongSign { entry });
    }
    let terms = [Term {
        col: multiple.col,
        coef: Frac::one(),
    }];
    let side = bounds.sides(multiple.col).low;
    add_part(entry, multiple.factor, &terms, side, least, row)
}

/// Adds an entry that names the high side of a column.
fn add_high(
    bounds: &Bounds,
    entry: usize,
    multiple: ColumnMultiple,
    least: Frac,
    row: &mut SparseRow,
) -> Result<Frac, CutFault>
    requires { length bounds.now ≤ length row.old.entries }
    ensures steps { MatchResult result
        (λ more. add_high bounds.now entry multiple (record { coefficients = row.old.entries; least = least })
        ≡ Ok (record { coefficients = row.new.entries; least = more }))
        (λ fault. add_high bounds.now entry multiple (record { coefficients = row.old.entries; least = least })
        ≡ Err fault) }
    ensures columns { length row.new.entries ≡ length row.old.entries }
{
    if multiple.col as usize >= bounds.len() {
        return Err(CutFault::UnknownColumn { entry });
    }
    if !multiple.factor.is_negative() {
        return Err(CutFault::WrongSign { entry });
    }
    let terms = [Term {
        col: multiple.col,
        coef: Frac::one(),
    }];
    let side = bounds.sides(multiple.col).high;
    add_part(entry, multiple.factor, &terms, side, least, row)
}

/// Adds entries that name rows, and answers the right side.
pub(crate) fn add_rows(
    rows: &Rows<'_>,
    bounds: &Bounds,
    multiples: &[RowMultiple],
    start: Frac,
    row: &mut SparseRow,
) -> Result<Frac, CutFault>
    requires fits { Fits (length bounds.now) (lent_of rows.now) }
    requires room { length bounds.now ≤ length row.old.entries }
    ensures steps { MatchResult result
        (λ more. add_rows (lent_of rows.entry.now) bounds.now 0 multiples.now
        (record { coefficients = row.old.entries; least = start })
        ≡ Ok (record { coefficients = row.new.entries; least = more }))
        (λ fault. add_rows (lent_of rows.entry.now) bounds.now 0 multiples.now
        (record { coefficients = row.old.entries; least = start }) ≡ Err fault) }
    ensures columns { length row.new.entries ≡ length row.old.entries }
{
    let mut least = start;
    for at in 0..multiples.len() {
        match add_row(rows, bounds, at, multiples[at], least, row) {
            Ok(more) => least = more,
            Err(fault) => return Err(fault),
        }
    }
    Ok(least)
}

/// Adds entries that name low sides, of which the first has this number, and answers the right side.
pub(crate) fn add_lows(
    bounds: &Bounds,
    first: usize,
    multiples: &[ColumnMultiple],
    start: Frac,
    row: &mut SparseRow,
) -> Result<Frac, CutFault>
    requires room { length bounds.now ≤ length row.old.entries }
    requires few { first + length multiples.now ≤ most_multiples }
    ensures steps { MatchResult result
        (λ more. add_lows bounds.now first multiples.now (record { coefficients = row.old.entries; least = start })
        ≡ Ok (record { coefficients = row.new.entries; least = more }))
        (λ fault. add_lows bounds.now first multiples.now
        (record { coefficients = row.old.entries; least = start }) ≡ Err fault) }
    ensures columns { length row.new.entries ≡ length row.old.entries }
{
    let mut least = start;
    for at in 0..multiples.len() {
        match add_low(bounds, first + at, multiples[at], least, row) {
            Ok(more) => least = more,
            Err(fault) => return Err(fault),
        }
    }
    Ok(least)
}

/// Adds entries that name high sides, of which the first has this number, and answers the right side.
pub(crate) fn add_highs(
    bounds: &Bounds,
    first: usize,
    multiples: &[ColumnMultiple],
    start: Frac,
    row: &mut SparseRow,
) -> Result<Frac, CutFault>
    requires room { length bounds.now ≤ length row.old.entries }
    requires few { first + length multiples.now ≤ most_multiples }
    ensures steps { MatchResult result
        (λ more. add_highs bounds.now first multiples.now (record { coefficients = row.old.entries; least = start })
        ≡ Ok (record { coefficients = row.new.entries; least = more }))
        (λ fault. add_highs bounds.now first multiples.now
        (record { coefficients = row.old.entries; least = start }) ≡ Err fault) }
    ensures columns { length row.new.entries ≡ length row.old.entries }
{
    let mut least = start;
    for at in 0..multiples.len() {
        match add_high(bounds, first + at, multiples[at], least, row) {
            Ok(more) => least = more,
            Err(fault) => return Err(fault),
        }
    }
    Ok(least)
}
