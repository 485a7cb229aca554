//! The check of split cuts, each over two rows of coefficients.
ghost use Rattle.std.specs.Prelude.{◌≡◌, ◌≢◌, ℕ, ◌<◌, ◌≤◌, pos, ◌+ℤ◌, true, false, length, slice_index_or, All, Ok, Err, MatchOption, MatchResult};
ghost use Rattle.std.specs.List.{Contains};
ghost use Rattle.cip_rational.specs.Rational.{zeroℚ, minimum};
ghost use Rattle.cip_rational.specs.Range.{too_large};
ghost use Rattle.cip_cert.specs.Lent.{lent_of, Fits};
ghost use Rattle.cip_split.specs.SplitChecks.{left_row, right_row, first_difference, joined, split_of};

use crate::form_sums::add_side;
use crate::forms::{form_fault, sign_fault};
use cip_cert::{Bounds, Rows, SparseRow, SplitCut, SplitFormFault, aggregate_row};
use cip_frac::Frac;

/// The next whole number, if it is in range.
fn next_of(number: i128) -> Option<i128>
    ensures { MatchOption result (too_large (number +ℤ pos 1) ≡ true)
        (λ next. (next ≡ number +ℤ pos 1) × (too_large (number +ℤ pos 1) ≡ false)) }
{
    if number == i128::MAX {
        None
    } else {
        Some(number + 1)
    }
}

/// The left row: the left combination, and the form being at most the number.
fn left_row(
    rows: &Rows<'_>,
    bounds: &Bounds,
    cut: &SplitCut,
    row: &mut SparseRow,
) -> Result<Frac, SplitFormFault>
    requires fits { Fits (length bounds.now) (lent_of rows.now) }
    requires room { length bounds.now ≤ length row.old.entries }
    requires form { All (λ term. term.col < length row.old.entries) cut.now.form.items }
    ensures steps { MatchResult result
        (λ least. left_row (lent_of rows.entry.now) bounds.now (length row.old.entries) cut.now
        ≡ Ok (record { coefficients = row.new.entries; least = least }))
        (λ fault. left_row (lent_of rows.entry.now) bounds.now (length row.old.entries) cut.now ≡ Err fault) }
    ensures columns { length row.new.entries ≡ length row.old.entries }
{
    let least = match aggregate_row(rows, bounds, &cut.left, row) {
        Ok(least) => least,
        Err(fault) => return Err(SplitFormFault::Left(fault)),
    };
    add_side(
        cut.left_factor.neg(),
        cut.form.as_slice(),
        cut.k,
        least,
        row,
    )
}

/// The right row: the right combination, and the form being at least the next number, which is this one.
fn right_row(
    rows: &Rows<'_>,
    bounds: &Bounds,
    cut: &SplitCut,
    next: i128,
    row: &mut SparseRow,
) -> Result<Frac, SplitFormFault>
    requires fits { Fits (length bounds.now) (lent_of rows.now) }
    requires room { length bounds.now ≤ length row.old.entries }
    requires form { All (λ term. term.col < length row.old.entries) cut.now.form.items }
    requires next { next ≡ cut.now.k +ℤ pos 1 }
    ensures steps { MatchResult result
        (λ least. right_row (lent_of rows.entry.now) bounds.now (length row.old.entries) cut.now
        ≡ Ok (record { coefficients = row.new.entries; least = least }))
        (λ fault. right_row (lent_of rows.entry.now) bounds.now (length row.old.entries) cut.now ≡ Err fault) }
    ensures columns { length row.new.entries ≡ length row.old.entries }
{
    let least = match aggregate_row(rows, bounds, &cut.right, row) {
        Ok(least) => least,
        Err(fault) => return Err(SplitFormFault::Right(fault)),
    };
    add_side(cut.right_factor, cut.form.as_slice(), next, least, row)
}

/// A column, if it is below another one and two rows differ there; or else that other one.
fn lesser_difference(least: usize, column: usize, entries: &[Frac], others: &[Frac]) -> usize
    requires within { least ≤ length entries.now }
    requires same { length others.now ≡ length entries.now }
    ensures below { result ≤ least }
    ensures differs { result < least → (result ≡ column)
        × (slice_index_or entries.now column zeroℚ ≢ slice_index_or others.now column zeroℚ) }
    ensures agrees { column < result
        → slice_index_or entries.now column zeroℚ ≡ slice_index_or others.now column zeroℚ }
{
    if column < least && entries[column] != others[column] {
        column
    } else {
        least
    }
}

/// The least of these columns below `start` at which two rows differ, or `start`.
fn least_difference(start: usize, touched: &[u32], entries: &[Frac], others: &[Frac]) -> usize
    requires within { start ≤ length entries.now }
    requires same { length others.now ≡ length entries.now }
    ensures below { result ≤ start }
    ensures differs { result < start
        → slice_index_or entries.now result zeroℚ ≢ slice_index_or others.now result zeroℚ }
    ensures agrees { (column : ℕ) → Contains touched.now column → column < result
        → slice_index_or entries.now column zeroℚ ≡ slice_index_or others.now column zeroℚ }
{
    let mut least = start;
    for column in touched {
        least = lesser_difference(least, *column as usize, entries, others);
    }
    least
}

/// The first column at which two rows differ, in time by the columns that were touched.
fn first_difference(row: &SparseRow, other: &SparseRow) -> Option<usize>
    requires { length other.now.entries ≡ length row.now.entries }
    ensures { result ≡ first_difference 0 row.now.entries other.now.entries }
{
    let entries = row.entries();
    let others = other.entries();
    let upto = least_difference(entries.len(), row.touched(), entries, others);
    let column = least_difference(upto, other.touched(), entries, others);
    if column < entries.len() {
        Some(column)
    } else {
        None
    }
}

/// The lesser of two numbers.
fn lesser(left: Frac, right: Frac) -> Frac
    ensures { result ≡ minimum left right }
{
    if left <= right { left } else { right }
}

/// The lesser of the right sides of two rows, if they have the same coefficients.
fn joined(
    left: Frac,
    row: &SparseRow,
    right: Frac,
    other: &SparseRow,
) -> Result<Frac, SplitFormFault>
    requires { length other.now.entries ≡ length row.now.entries }
    ensures { MatchResult result
        (λ least. joined (record { coefficients = row.now.entries; least = left })
        (record { coefficients = other.now.entries; least = right })
        ≡ Ok (record { coefficients = row.now.entries; least = least }))
        (λ fault. joined (record { coefficients = row.now.entries; least = left })
        (record { coefficients = other.now.entries; least = right }) ≡ Err fault) }
{
    match first_difference(row, other) {
        Some(column) => Err(SplitFormFault::Differs { column }),
        None => Ok(lesser(left, right)),
    }
}

/// The row of a split cut, with its coefficients left in the first of two rows.
pub(crate) fn split_sparse(
    rows: &Rows<'_>,
    bounds: &Bounds,
    cut: &SplitCut,
    row: &mut SparseRow,
    other: &mut SparseRow,
) -> Result<Frac, SplitFormFault>
    requires fits { Fits (length bounds.now) (lent_of rows.now) }
    requires room { length bounds.now ≤ length row.old.entries }
    requires same { length other.old.entries ≡ length row.old.entries }
    requires flags { length rows.now.whole.now ≡ length bounds.now }
    ensures steps { MatchResult result
        (λ least. split_of (lent_of rows.entry.now) rows.entry.now.whole.now bounds.now (length row.old.entries)
        cut.now ≡ Ok (record { coefficients = row.new.entries; least = least }))
        (λ fault. split_of (lent_of rows.entry.now) rows.entry.now.whole.now bounds.now (length row.old.entries)
        cut.now ≡ Err fault) }
    ensures columns { length row.new.entries ≡ length row.old.entries }
    ensures others { length other.new.entries ≡ length other.old.entries }
{
    if let Some(fault) = form_fault(cut.form.as_slice(), rows.whole) {
        return Err(fault);
    }
    if let Some(fault) = sign_fault(cut.left_factor, cut.right_factor) {
        return Err(fault);
    }
    let Some(next) = next_of(cut.k) else {
        return Err(SplitFormFault::FormWide);
    };
    let left = match left_row(rows, bounds, cut, row) {
        Ok(left) => left,
        Err(fault) => return Err(fault),
    };
    let right = match right_row(rows, bounds, cut, next, other) {
        Ok(right) => right,
        Err(fault) => return Err(fault),
    };
    joined(left, row, right, other)
}
