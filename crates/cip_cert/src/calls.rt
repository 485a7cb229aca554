//! The checks.
ghost use Rattle.std.specs.Prelude.{◌≡◌, ◌≤◌, ◌<◌, length, slice_index_or, false, Ok, Err, IsOk, IfOk, OnOk, MatchResult};
ghost use Rattle.cip_cert.specs.Lent.{lent_of, Fits, multiples_of};
ghost use Rattle.cip_cert.specs.Checks.{aggregate_of, derived, lower_bound_of, emptied};
ghost use Rattle.cip_cert.specs.Reductions.{reduced, SideFollows};
ghost use Rattle.cip_cert.specs.Follows.{RowFollows, BoundFollows, EmptinessFollows};

use crate::aggregate::aggregate;
use crate::checks::{derive_row, empties_row, lower_bound_row};
use crate::faults::CutFault;
use crate::reductions::{high_reduced_row, low_reduced_row};
use crate::rows::Rows;
use crate::scratch::Scratch;
use crate::sparse::SparseRow;
use cip_frac::Frac;
use cip_lin::{Bounds, Combo, Side};

/// Leaves the coefficients of the row that a combination adds up to in a row, and answers its right side: what each
/// check begins with, for checks of other crates. Each fault comes exactly where the entry that it names is the first
/// to break the rule that it names; after one the row holds anything.
pub fn aggregate_row(
    rows: &Rows<'_>,
    bounds: &Bounds,
    combo: &Combo,
    row: &mut SparseRow,
) -> Result<Frac, CutFault>
    requires fits { Fits (length bounds.now) (lent_of rows.now) }
    requires room { length bounds.now ≤ length row.old.entries }
    ensures steps { MatchResult result
        (λ least. aggregate_of (lent_of rows.entry.now) bounds.now (length row.old.entries) (multiples_of combo.now)
        ≡ Ok (record { coefficients = row.new.entries; least = least }))
        (λ fault. aggregate_of (lent_of rows.entry.now) bounds.now (length row.old.entries) (multiples_of combo.now)
        ≡ Err fault) }
    ensures columns { length row.new.entries ≡ length row.old.entries }
{
    aggregate(rows, bounds, combo, row)
}

/// Leaves the coefficients of the row that a combination adds up to in the scratch, and answers its right side, with
/// `round` rounded up. Each fault comes exactly where the entry or the column that it names is the first to break the
/// rule that it names; after one the scratch's row holds anything. The row holds at each point of the box at which the
/// rows hold; with `round`, at those whose whole columns have whole values.
pub fn derive(
    rows: &Rows<'_>,
    bounds: &Bounds,
    combo: &Combo,
    round: bool,
    scratch: &mut Scratch,
) -> Result<Frac, CutFault>
    requires fits { Fits (length bounds.now) (lent_of rows.now) }
    requires room { length bounds.now ≤ length scratch.old.row.entries }
    requires flags { length rows.now.whole.now ≡ length bounds.now }
    ensures steps { MatchResult result
        (λ least. derived (lent_of rows.entry.now) rows.entry.now.whole.now bounds.now
        (length scratch.old.row.entries) (multiples_of combo.now) round
        ≡ Ok (record { coefficients = scratch.new.row.entries; least = least }))
        (λ fault. derived (lent_of rows.entry.now) rows.entry.now.whole.now bounds.now
        (length scratch.old.row.entries) (multiples_of combo.now) round ≡ Err fault) }
    ensures follows { IfOk result (λ least. RowFollows (lent_of rows.entry.now) rows.entry.now.whole.now bounds.now
        round (record { coefficients = scratch.new.row.entries; least = least })) }
    ensures columns { length scratch.new.row.entries ≡ length scratch.old.row.entries }
    ensures bounds { scratch.new.bounds ≡ scratch.old.bounds }
{
    derive_row(rows, bounds, combo, round, &mut scratch.row)
}

/// `lower_bound` over a row of coefficients alone, for a box that stands beside it in a scratch; the row holds anything
/// then.
pub fn lower_bound_over(
    rows: &Rows<'_>,
    bounds: &Bounds,
    costs: &[Frac],
    combo: &Combo,
    row: &mut SparseRow,
) -> Result<Frac, CutFault>
    requires fits { Fits (length bounds.now) (lent_of rows.now) }
    requires room { length bounds.now ≤ length row.old.entries }
    requires costs { length costs.now ≡ length bounds.now }
    ensures steps { result ≡ lower_bound_of (lent_of rows.entry.now) bounds.now (length row.old.entries)
        costs.now (multiples_of combo.now) }
    ensures follows { IfOk result (BoundFollows (lent_of rows.entry.now) bounds.now costs.now) }
    ensures columns { length row.new.entries ≡ length row.old.entries }
{
    lower_bound_row(rows, bounds, costs, combo, row)
}

/// What costs come to at least at each point of the box at which the rows hold, by a combination. Each fault comes
/// exactly where the entry or the column that it names is the first to break the rule that it names. Unlike the other
/// checks this one passes over all columns, once: each may have a cost, and then adds its least product in the box.
pub fn lower_bound(
    rows: &Rows<'_>,
    bounds: &Bounds,
    costs: &[Frac],
    combo: &Combo,
    scratch: &mut Scratch,
) -> Result<Frac, CutFault>
    requires fits { Fits (length bounds.now) (lent_of rows.now) }
    requires room { length bounds.now ≤ length scratch.old.row.entries }
    requires costs { length costs.now ≡ length bounds.now }
    ensures steps { result ≡ lower_bound_of (lent_of rows.entry.now) bounds.now (length scratch.old.row.entries)
        costs.now (multiples_of combo.now) }
    ensures follows { IfOk result (BoundFollows (lent_of rows.entry.now) bounds.now costs.now) }
    ensures columns { length scratch.new.row.entries ≡ length scratch.old.row.entries }
    ensures bounds { scratch.new.bounds ≡ scratch.old.bounds }
{
    lower_bound_over(rows, bounds, costs, combo, &mut scratch.row)
}

/// `empties` over a row of coefficients alone, for a box that stands beside it in a scratch; the row holds anything
/// then.
pub fn empties_over(
    rows: &Rows<'_>,
    bounds: &Bounds,
    combo: &Combo,
    row: &mut SparseRow,
) -> Result<(), CutFault>
    requires fits { Fits (length bounds.now) (lent_of rows.now) }
    requires room { length bounds.now ≤ length row.old.entries }
    ensures steps { MatchResult result
        (λ _. IsOk (emptied (lent_of rows.entry.now) bounds.now (length row.old.entries) (multiples_of combo.now)))
        (λ fault. emptied (lent_of rows.entry.now) bounds.now (length row.old.entries) (multiples_of combo.now)
        ≡ Err fault) }
    ensures follows { OnOk result (EmptinessFollows (lent_of rows.entry.now) bounds.now) }
    ensures columns { length row.new.entries ≡ length row.old.entries }
{
    match empties_row(rows, bounds, combo, row) {
        Ok(_) => Ok(()),
        Err(fault) => Err(fault),
    }
}

/// That no point of the box is one at which the rows hold, by a combination. Each fault comes exactly where the entry
/// or the column that it names is the first to break the rule that it names, `NotPositive` where the bound at costs 0,
/// which it carries, isn't above 0.
pub fn empties(
    rows: &Rows<'_>,
    bounds: &Bounds,
    combo: &Combo,
    scratch: &mut Scratch,
) -> Result<(), CutFault>
    requires fits { Fits (length bounds.now) (lent_of rows.now) }
    requires room { length bounds.now ≤ length scratch.old.row.entries }
    ensures steps { MatchResult result
        (λ _. IsOk (emptied (lent_of rows.entry.now) bounds.now (length scratch.old.row.entries)
        (multiples_of combo.now)))
        (λ fault. emptied (lent_of rows.entry.now) bounds.now (length scratch.old.row.entries)
        (multiples_of combo.now) ≡ Err fault) }
    ensures follows { OnOk result (EmptinessFollows (lent_of rows.entry.now) bounds.now) }
    ensures columns { length scratch.new.row.entries ≡ length scratch.old.row.entries }
    ensures bounds { scratch.new.bounds ≡ scratch.old.bounds }
{
    empties_over(rows, bounds, combo, &mut scratch.row)
}

/// A side of a column, if a combination implies it at each point of the box at which the rows hold and the column, if
/// it is whole, has a whole value; the answer is the value that was given. Each fault comes exactly where the entry or
/// the column that it names is the first to break the rule that it names, `NotImplied` where the side that is implied,
/// which it carries if there is one, is weaker.
pub fn reduction(
    rows: &Rows<'_>,
    bounds: &Bounds,
    column: u32,
    side: Side,
    value: Frac,
    combo: &Combo,
    scratch: &mut Scratch,
) -> Result<Frac, CutFault>
    requires fits { Fits (length bounds.now) (lent_of rows.now) }
    requires room { length bounds.now ≤ length scratch.old.row.entries }
    requires flags { length rows.now.whole.now ≡ length bounds.now }
    requires inside { column < length bounds.now }
    ensures steps { result ≡ reduced side (lent_of rows.entry.now)
        (slice_index_or rows.entry.now.whole.now column false) bounds.now (length scratch.old.row.entries) column value
        (multiples_of combo.now) }
    ensures value { IfOk result (λ answer. answer ≡ value) }
    ensures follows { OnOk result (SideFollows side (lent_of rows.entry.now) bounds.now column
        (slice_index_or rows.entry.now.whole.now column false) value) }
    ensures columns { length scratch.new.row.entries ≡ length scratch.old.row.entries }
    ensures bounds { scratch.new.bounds ≡ scratch.old.bounds }
{
    match side {
        Side::Low => low_reduced_row(rows, bounds, column, value, combo, &mut scratch.row),
        Side::High => high_reduced_row(rows, bounds, column, value, combo, &mut scratch.row),
    }
}
