//! The check of a split cut, and whether one rests on the cutoff row.
ghost use Rattle.std.specs.Prelude.{◌≡◌, ◌≤◌, length, true, Ok, Err, IfOk, MatchResult};
ghost use Rattle.cip_cert.specs.Pool.{AreRising};
ghost use Rattle.cip_cert.specs.Lent.{lent_of, Fits};
ghost use Rattle.cip_cert.specs.Follows.{RowFollows};
ghost use Rattle.cip_split.specs.SplitChecks.{split_of};
ghost use Rattle.cip_split.specs.SplitMeaning.{split_rests};

use crate::split_rows::split_sparse;
use cip_cert::{Bounds, PoolRow, Rows, Scratch, SplitCut, SplitFormFault, rests_on_cutoff};
use cip_frac::Frac;

/// Leaves the coefficients of the row of a split cut in the first scratch, and answers its right side: the lesser one
/// of its left and its right row, which have these coefficients both. Each fault comes exactly where it is the first in
/// the order that `SplitFormFault` says; after one the rows of the scratches hold anything, as the second's always
/// does. The row holds at each point of the box at which the rows hold and whose whole columns have whole values.
pub fn split_row(
    rows: &Rows<'_>,
    bounds: &Bounds,
    cut: &SplitCut,
    first: &mut Scratch,
    second: &mut Scratch,
) -> Result<Frac, SplitFormFault>
    requires fits { Fits (length bounds.now) (lent_of rows.now) }
    requires room { length bounds.now ≤ length first.old.row.entries }
    requires same { length second.old.row.entries ≡ length first.old.row.entries }
    requires flags { length rows.now.whole.now ≡ length bounds.now }
    ensures steps { MatchResult result
        (λ least. split_of (lent_of rows.entry.now) rows.entry.now.whole.now bounds.now
        (length first.old.row.entries) cut.now
        ≡ Ok (record { coefficients = first.new.row.entries; least = least }))
        (λ fault. split_of (lent_of rows.entry.now) rows.entry.now.whole.now bounds.now
        (length first.old.row.entries) cut.now ≡ Err fault) }
    ensures follows { IfOk result (λ least. RowFollows (lent_of rows.entry.now) rows.entry.now.whole.now bounds.now
        true (record { coefficients = first.new.row.entries; least = least })) }
    ensures columns { length first.new.row.entries ≡ length first.old.row.entries }
    ensures others { length second.new.row.entries ≡ length second.old.row.entries }
    ensures bounds { first.new.bounds ≡ first.old.bounds }
    ensures other_bounds { second.new.bounds ≡ second.old.bounds }
{
    split_sparse(rows, bounds, cut, &mut first.row, &mut second.row)
}

/// Whether a split cut rests on the cutoff row: one of its combinations does.
pub fn split_rests_on_cutoff(pool: &[PoolRow], cut: &SplitCut) -> bool
    requires { AreRising pool.now }
    ensures { result ≡ split_rests pool.now cut.now }
{
    rests_on_cutoff(pool, &cut.left) || rests_on_cutoff(pool, &cut.right)
}
