//! The aggregated row of a combination.
ghost use Rattle.std.specs.Prelude.{◌≡◌, ◌≤◌, nat_lt, length, Ok, Err, MatchResult};
ghost use Rattle.cip_cert.specs.Lent.{lent_of, Fits, multiples_of, count_of};
ghost use Rattle.cip_cert.specs.Checks.{aggregate_of};
ghost use Rattle.cip_node_rules.specs.RowRules.{most_multiples};

use crate::entries::{add_highs, add_lows, add_rows};
use crate::faults::CutFault;
use crate::rows::Rows;
use crate::sparse::SparseRow;
use cip_frac::Frac;
use cip_lin::{Bounds, Combo};
use cip_node_rules::are_too_many;

/// Whether a combination has more entries than are allowed.
fn is_too_long(combo: &Combo) -> bool
    ensures { result ≡ nat_lt most_multiples (count_of (multiples_of combo.now)) }
{
    are_too_many(combo.rows.len(), combo.lows.len(), combo.highs.len())
}

/// Leaves the coefficients of the aggregated row in the row, and answers the right side.
pub(crate) fn aggregate(
    rows: &Rows<'_>,
    bounds: &Bounds,
    combo: &Combo,
    row: &mut SparseRow,
) -> Result<Frac, CutFault>
    requires fits { Fits (length bounds.now) (lent_of rows.now) }
    requires room { length bounds.now ≤ length row.old.entries }
    ensures steps { MatchResult result
        (λ least. aggregate_of (lent_of rows.entry.now) bounds.now (length row.old.entries) (multiples_of combo.now)
        ≡ Ok (record { coefficients = row.new.entries; least = least }))
        (λ fault. aggregate_of (lent_of rows.entry.now) bounds.now (length row.old.entries) (multiples_of combo.now)
        ≡ Err fault) }
    ensures columns { length row.new.entries ≡ length row.old.entries }
{
    if is_too_long(combo) {
        return Err(CutFault::TooLong);
    }
    row.clear();
    let (above, below) = (combo.rows.len(), combo.rows.len() + combo.lows.len());
    let least = match add_rows(rows, bounds, combo.rows.as_slice(), Frac::zero(), row) {
        Ok(least) => least,
        Err(fault) => return Err(fault),
    };
    let least = match add_lows(bounds, above, combo.lows.as_slice(), least, row) {
        Ok(least) => least,
        Err(fault) => return Err(fault),
    };
    add_highs(bounds, below, combo.highs.as_slice(), least, row)
}
