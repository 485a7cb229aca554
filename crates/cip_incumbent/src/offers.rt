//! What offering a point comes to.
use cip_model::Verdict;

/// What offering a point comes to.
#[derive(Clone, Copy)]
pub enum Offered {
    /// The point is feasible, and cheaper than what was held: it is held now.
    Taken,
    /// The point is feasible, and costs as much as the point held or more.
    NotBetter,
    /// The test of the point says that it isn't feasible, or that a sum overflows.
    Breaks(Verdict),
}
