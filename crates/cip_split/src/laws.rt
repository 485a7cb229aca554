//! A law of split cuts: the function does nothing, and its contract is the law.
ghost use Rattle.cip_split.specs.Statements.{SplitCutsAreSplitRows};

/// The row of a split cut that is accepted is the split row of what its two combinations add up to, and valid below the
/// cost held, or below each cost where the cut doesn't rest on the cutoff row.
pub fn split_cuts_are_split_rows()
    ensures { SplitCutsAreSplitRows }
{}
