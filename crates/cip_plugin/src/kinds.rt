//! The kinds of plugins.

/// What a plugin is asked for.
#[derive(Clone, Copy, PartialEq, Eq)]
pub enum Kind {
    /// Cuts.
    Separator,
    /// Reductions.
    Propagator,
    /// Points of a block, and a bound on their costs.
    Pricer,
    /// Points of the program.
    Heuristic,
    /// Splits.
    BranchRule,
    /// Cuts, reductions, and what to do about a point.
    ConsHandler,
    /// Wishes, as events are told.
    EventHandler,
}
