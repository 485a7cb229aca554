//! Which combinations rest on the cutoff row.
ghost use Rattle.std.specs.Prelude.{◌≡◌};
ghost use Rattle.cip_cert.specs.Pool.{pool_row, AreRising};
ghost use Rattle.cip_cert.specs.Resting.{is_resting, names_resting, rests_on_cutoff};

use crate::lookup::pool_place;
use crate::rows::PoolRow;
use cip_lin::{Combo, RowId};

/// Whether the row of a pool with this id rests on the cutoff row.
fn is_resting(pool: &[PoolRow], id: u64) -> bool
    requires { AreRising pool.now }
    ensures { result ≡ is_resting (pool_row pool.now id) }
{
    match pool_place(pool, id) {
        Some(place) => pool[place].rests,
        None => false,
    }
}

/// Whether a name is that of the cutoff row, or of a row of a pool that rests on it.
fn names_resting(pool: &[PoolRow], row: RowId) -> bool
    requires { AreRising pool.now }
    ensures { result ≡ names_resting pool.now row }
{
    match row {
        RowId::Own(_) => false,
        RowId::Pool(id) => is_resting(pool, id),
        RowId::Cutoff => true,
    }
}

/// Whether a combination rests on the cutoff row: it cites that, or a row of the pool that rests on it. The row that it
/// adds up to is valid below each cost where it doesn't.
pub fn rests_on_cutoff(pool: &[PoolRow], combo: &Combo) -> bool
    requires { AreRising pool.now }
    ensures { result ≡ rests_on_cutoff pool.now combo.now.rows.items }
{
    for multiple in &combo.rows {
        if names_resting(pool, multiple.row) {
            return true;
        }
    }
    false
}
