//! What is answered of a leaf.
use cip_frac::Frac;
use cip_model::Place;

/// By what a wide leaf is shown.
#[derive(Clone, Copy)]
pub enum Shown {
    /// A fixed part, what a side leaves of it, a first value, or a sum of the test of the point or of the ray overflows
    /// there.
    Place(Place),
    /// So many moves, at least 1, lead to one out of range, which is counted.
    Moves(u64),
}

/// What is answered of a leaf.
#[derive(Drop)]
pub enum LeafAnswer {
    /// A point of the leaf of least cost. `check` says `Feasible` of it, with this cost.
    Best {
        /// A value for each column.
        point: Vec<Frac>,
        /// The cost of the point, in the minimised form.
        cost: Frac,
    },
    /// The leaf has no point.
    NoPoint,
    /// The cost falls without end.
    Unbounded {
        /// A point of the leaf.
        point: Vec<Frac>,
        /// A ray that `check_ray` accepts beside the point.
        ray: Vec<Frac>,
    },
    /// The leaf is wide, so nothing is known of its points.
    Wide {
        /// By what this is shown.
        shown: Shown,
    },
}
