//! Which way values go, and what Bland's rule says at a state of the simplex method.
use crate::Move;

/// Which way a value goes.
#[derive(Clone, Copy, PartialEq, Eq)]
pub enum Heading {
    /// It rises.
    Up,
    /// It falls.
    Down,
}

/// What the rule says at a state. Variables go by number, columns first, then rows.
#[derive(Clone, Copy, PartialEq, Eq)]
pub enum Step {
    /// An end: the low side of this variable is above its high one, so there is no point.
    Crossed(u32),
    /// An end: this basic variable is outside its sides, and its row shows that there is no point.
    Infeasible(u32),
    /// An end: the point is optimal.
    Optimum,
    /// An end: the cost falls as this variable goes, and nothing limits that.
    Ray(u32),
    /// No end: this move leads to the next state.
    Makes(Move),
}
