//! What the master program answers.
use crate::Shown;
use cip_frac::Frac;

/// The weight of a point that is held.
#[derive(Clone, Copy)]
pub struct PointWeight {
    /// The id of the point.
    pub id: u32,
    /// Its weight, at least 0.
    pub weight: Frac,
}

/// A mixture of held points: the weights of each block's points sum to 1.
#[derive(Drop)]
pub struct Weights {
    /// The values of the columns of no block, by rising number.
    pub free: Vec<Frac>,
    /// The weight of each held point that lies in the box, by rising id.
    pub points: Vec<PointWeight>,
}

/// Why the master program isn't solved.
#[derive(Clone, Copy, PartialEq, Eq)]
pub enum MasterCause {
    /// A coefficient of a held point is out of range, or a move of the simplex method is.
    Wide,
    /// The cost falls without end.
    Unbounded,
    /// As many moves as are allowed lead to no end.
    Limit,
    /// An end was found, and its factors on the rows don't show what it says: the sides of a master row or of a column
    /// of no block cross, or what is worked out of the factors, or the cost with the constant, is out of range.
    Unshown,
}

/// What the master program answers.
#[derive(Drop)]
pub enum MasterAnswer {
    /// A mixture of held points of least cost.
    Prices {
        /// Multipliers of the master rows and a price for each block, which show that none costs less; with what the
        /// multipliers leave of the costs.
        shown: Shown,
        /// The mixture.
        weights: Weights,
        /// Its cost, with the program's constant.
        cost: Frac,
    },
    /// No mixture of held points satisfies the master rows.
    Farkas {
        /// Multipliers and prices that show it at costs 0; with what the multipliers leave of these.
        shown: Shown,
    },
    /// It isn't solved.
    Unsolved {
        /// Why not.
        cause: MasterCause,
    },
}
