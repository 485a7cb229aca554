//! The limits of a pool.
ghost use Rattle.std.specs.Prelude.{◌≡◌};
ghost use Rattle.cip_rows.specs.RowPools.{most_pool_rows, kept_pool_rows, most_ids};
ghost use Rattle.cip_rows.specs.declared.limits.TheConstants.{MOST_POOL_ROWS, KEPT_POOL_ROWS, MOST_IDS};

/// The most rows that a pool holds.
pub const MOST_POOL_ROWS: usize = 8_192;

/// The most rows that are left when a pool ages.
pub const KEPT_POOL_ROWS: usize = 4_096;

/// The most ids that a pool gives.
pub const MOST_IDS: u64 = 9_223_372_036_854_775_808;

/// The limits that the code keeps are those of the definitions.
pub fn limits_agree()
    ensures rows { MOST_POOL_ROWS ≡ most_pool_rows }
    ensures kept { KEPT_POOL_ROWS ≡ kept_pool_rows }
    ensures ids { MOST_IDS ≡ most_ids }
{}
