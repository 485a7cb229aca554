//! What follows from the clauses of rounds, as a law. The function does nothing.
ghost use Rattle.cip_calls.specs.Joined.{UsesJoin};

/// The uses of plugins in the parts of the work on a node join to one use.
pub fn uses_join()
    ensures { UsesJoin }
{}
