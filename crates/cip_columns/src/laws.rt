//! Laws of pools: each function does nothing, and its contract is a law.
ghost use Rattle.std.specs.Prelude.{◌≡◌};
ghost use Rattle.cip_columns.specs.ColumnPools.{most_points, InsideMeans};
ghost use Rattle.cip_columns.specs.declared.pools.TheConstants.{MOST_POINTS};

/// A list of values passes the test of a box exactly where it has a value for each column, between its sides.
pub fn inside_is_in_the_box()
    ensures { InsideMeans }
{}

/// The limit that the code keeps is that of the definitions.
pub fn limit_agrees()
    ensures { MOST_POINTS ≡ most_points }
{}
