//! What pricing answers.
use cip_frac::Frac;
use cip_master::{MasterCause, Weights};

/// How much is done.
#[derive(Clone, Copy)]
pub struct PriceLimits {
    /// The most rounds that are asked.
    pub rounds: u32,
    /// The most moves of the simplex method for each master program, by each rule.
    pub moves: u32,
}

/// Why pricing isn't closed.
#[derive(Clone, Copy, PartialEq, Eq)]
pub enum PriceCause {
    /// As many rounds as are allowed were asked, and each added a point.
    Rounds,
    /// A round added no point, and nothing closes this block: no accepted tree shows that it has no point, or that its
    /// points cost at least its price.
    PricerGap { block: u32 },
    /// A point is new, and the pool is full.
    PoolFull,
    /// The master program isn't solved, for this cause; `Wide` comes also where the Lagrangian bound is out of range.
    Master { cause: MasterCause },
}

/// What pricing answers.
#[derive(Drop)]
pub enum PriceAnswer {
    /// The mixture of these weights costs the bound, and none costs less.
    Closed { bound: Frac, weights: Weights },
    /// No feasible point in the box costs less than the bound, the greatest Lagrangian bound of the rounds.
    Bounded { bound: Frac, cause: PriceCause },
    /// No feasible point lies in the box.
    NoPoint,
    /// Nothing is shown.
    NoBound { cause: PriceCause },
}
