//! What the simplex method answers.
use cip_bland::Move;
use cip_dict::Frac;
use cip_lin::Combo;

/// What the simplex method answers on a linear program.
#[derive(Drop)]
pub enum LpAnswer {
    /// A point of least cost.
    Optimal {
        /// A value for each column.
        point: Vec<Frac>,
        /// Rows and sides of columns, whose bound is the cost.
        combo: Combo,
        /// The cost of the point.
        cost: Frac,
    },
    /// There is no point.
    Infeasible {
        /// Rows and sides of columns, whose sum no point of the box keeps.
        combo: Combo,
    },
    /// The cost falls without end.
    Unbounded {
        /// A point.
        point: Vec<Frac>,
        /// A direction in which each point is left only for points, and the cost falls. It has 1 or -1 on the variable
        /// that enters.
        ray: Vec<Frac>,
    },
    /// These moves, the last of which is out of range; none where the first state is out of range.
    Wide {
        /// From the first state.
        moves: Vec<Move>,
    },
    /// As many moves as are allowed lead to a state that is no end.
    Limit,
}
