//! How the work on a node ends.
use cip_frac::Frac;
use cip_leaf::Shown;
use cip_relax::Mark;

/// How a node ended.
#[derive(Drop)]
pub enum NodeEnd {
    /// Its bound isn't below the cost held.
    Pruned,
    /// Its box has no improving point.
    Empty,
    /// It is a leaf that comes back as one with a point, and its least cost isn't below the cost held.
    Solved,
    /// It was split into halves with these numbers, the low one first.
    Split(u64, u64),
    /// It is a leaf that comes back as that of these whole values and choices of the program as read, which is wide by
    /// what is shown, and was put aside with this bound.
    Parked {
        leaf: Vec<Frac>,
        on: Vec<bool>,
        bound: Option<Frac>,
        shown: Shown,
    },
    /// It was put aside: from this point of the leaf that it comes back as the cost falls without end along this ray.
    Ray {
        point: Vec<Frac>,
        ray: Vec<Frac>,
    },
}

/// What was met in the work on a node.
#[derive(Drop)]
pub struct NodeRecord {
    /// What its linear program met, if that showed nothing.
    pub mark: Option<Mark>,
}
