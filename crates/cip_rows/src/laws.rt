//! A law of pools: the function does nothing, and its contract is the law.
ghost use Rattle.cip_rows.specs.Statements.{PoolsStayValid};

/// Each row of a pool is valid in its scope, below the cost held where it rests on that and below each where it
/// doesn't, and stays so where a row is derived and added, where rows are taken out, and where a cheaper cost is held;
/// after `release` each is valid below each cost, also where the program's costs are others.
pub fn pools_stay_valid()
    ensures { PoolsStayValid }
{}
