//! The checks, each over the row of a scratch.
ghost use Rattle.std.specs.Prelude.{◌≡◌, ◌≤◌, List, length, Result, Ok, Err, MatchResult};
ghost use Rattle.cip_rational.specs.Rational.{ℚ};
ghost use Rattle.cip_cert.specs.Lent.{lent_of, Fits, multiples_of};
ghost use Rattle.cip_cert.specs.Checks.{chain, aggregate_of, derived, lower_bound_of, rests_from, rests_of, emptied};
ghost use Rattle.cip_cert.specs.declared.faults.CutFault.{CutFault};

use crate::aggregate::aggregate;
use crate::faults::CutFault;
use crate::rows::Rows;
use crate::sparse::SparseRow;
use crate::walks::{bound, first_stop, rests};
use cip_frac::Frac;
use cip_lin::{Bounds, Combo};

/// The row of a combination, rounded if that is asked for.
pub(crate) fn derive_row(
    rows: &Rows<'_>,
    bounds: &Bounds,
    combo: &Combo,
    round: bool,
    row: &mut SparseRow,
) -> Result<Frac, CutFault>
    requires fits { Fits (length bounds.now) (lent_of rows.now) }
    requires room { length bounds.now ≤ length row.old.entries }
    requires flags { length rows.now.whole.now ≡ length bounds.now }
    ensures steps { MatchResult result
        (λ least. derived (lent_of rows.entry.now) rows.entry.now.whole.now bounds.now (length row.old.entries)
        (multiples_of combo.now) round ≡ Ok (record { coefficients = row.new.entries; least = least }))
        (λ fault. derived (lent_of rows.entry.now) rows.entry.now.whole.now bounds.now (length row.old.entries)
        (multiples_of combo.now) round ≡ Err fault) }
    ensures columns { length row.new.entries ≡ length row.old.entries }
{
    let least = match aggregate(rows, bounds, combo, row) {
        Ok(least) => least,
        Err(fault) => return Err(fault),
    };
    if !round {
        return Ok(least);
    }
    row.sort();
    match first_stop(rows.whole, row.entries(), row.touched()) {
        Some(column) => Err(CutFault::NotWhole { column }),
        None => Ok(least.rounded_up()),
    }
}

/// What costs come to at least by a combination.
pub(crate) fn lower_bound_row(
    rows: &Rows<'_>,
    bounds: &Bounds,
    costs: &[Frac],
    combo: &Combo,
    row: &mut SparseRow,
) -> Result<Frac, CutFault>
    requires fits { Fits (length bounds.now) (lent_of rows.now) }
    requires room { length bounds.now ≤ length row.old.entries }
    requires costs { length costs.now ≡ length bounds.now }
    ensures steps { result ≡ lower_bound_of (lent_of rows.entry.now) bounds.now (length row.old.entries) costs.now
        (multiples_of combo.now) }
    ensures columns { length row.new.entries ≡ length row.old.entries }
{
    let least = match aggregate(rows, bounds, combo, row) {
        Ok(least) => least,
        Err(fault) => return Err(fault),
    };
    bound(costs, row.entries(), bounds.as_slice(), least)
}

/// What costs of 0, or the coefficient of one column alone, come to at least by a combination; its row of coefficients
/// is left behind for what comes after that.
pub(crate) fn rests_row(
    rows: &Rows<'_>,
    bounds: &Bounds,
    named: Option<u32>,
    combo: &Combo,
    row: &mut SparseRow,
) -> Result<Frac, CutFault>
    requires fits { Fits (length bounds.now) (lent_of rows.now) }
    requires room { length bounds.now ≤ length row.old.entries }
    ensures steps { result ≡ rests_of (lent_of rows.entry.now) bounds.now (length row.old.entries) named
        (multiples_of combo.now) }
    ensures next { (more : List ℚ → ℚ → Result ℚ CutFault)
        → chain (aggregate_of (lent_of rows.entry.now) bounds.now (length row.old.entries) (multiples_of combo.now))
        (λ summed. chain (rests_from named 0 summed.least summed.coefficients bounds.now) (more summed.coefficients))
        ≡ chain result (more row.new.entries) }
    ensures columns { length row.new.entries ≡ length row.old.entries }
{
    let least = match aggregate(rows, bounds, combo, row) {
        Ok(least) => least,
        Err(fault) => return Err(fault),
    };
    row.sort();
    rests(
        named,
        row.entries(),
        row.touched(),
        bounds.as_slice(),
        least,
    )
}

/// The bound at costs 0, if it is above 0.
pub(crate) fn empties_row(
    rows: &Rows<'_>,
    bounds: &Bounds,
    combo: &Combo,
    row: &mut SparseRow,
) -> Result<Frac, CutFault>
    requires fits { Fits (length bounds.now) (lent_of rows.now) }
    requires room { length bounds.now ≤ length row.old.entries }
    ensures steps { result ≡ emptied (lent_of rows.entry.now) bounds.now (length row.old.entries)
        (multiples_of combo.now) }
    ensures columns { length row.new.entries ≡ length row.old.entries }
{
    match rests_row(rows, bounds, None, combo, row) {
        Ok(value) if value.is_positive() => Ok(value),
        Ok(value) => Err(CutFault::NotPositive { value }),
        Err(fault) => Err(fault),
    }
}
