//! Rows by their names.
ghost use Rattle.std.specs.Prelude.{◌≡◌, ℕ, ◌+◌, ◌<◌, ◌≤◌, length, slice_index_or, slice_get, Some, None, MatchOption};
ghost use Rattle.cip_cert.specs.declared.rows.PoolRow.{PoolRow};
ghost use Rattle.cip_cert.specs.Pool.{AreRising, pool_row};

use crate::rows::PoolRow;

/// The place of the first row of a pool whose id is at least this one, or the number of rows.
fn place_from(pool: &[PoolRow], id: u64) -> usize
    requires { AreRising pool.now }
    ensures within { result ≤ length pool.now }
    ensures before { (k : ℕ) (default : PoolRow) → k < result → (slice_index_or pool.now k default).id < id }
    ensures after { (k : ℕ) (default : PoolRow) → result ≤ k → k < length pool.now
        → id ≤ (slice_index_or pool.now k default).id }
{
    let mut low = 0;
    let mut high = pool.len();
    while low < high {
        let middle = low + (high - low) / 2;
        if pool[middle].id < id {
            low = middle + 1;
        } else {
            high = middle;
        }
    }
    low
}

/// The row of a pool with this id, in time by the logarithm of the number of rows.
pub(crate) fn pool_place(pool: &[PoolRow], id: u64) -> Option<usize>
    requires { AreRising pool.now }
    ensures { MatchOption result (pool_row pool.now id ≡ None)
        (λ place. (place < length pool.now) × (slice_get pool.now place ≡ pool_row pool.now id)) }
{
    let place = place_from(pool, id);
    if place < pool.len() && pool[place].id == id {
        Some(place)
    } else {
        None
    }
}
