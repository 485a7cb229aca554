//! Heuristics, plugins that look for points, and branching rules, plugins that say where a node is split.
#![tactic(auto)]

mod coefficients;
mod dives;
mod diving;
mod exchanges;
mod exchanging;
mod first;
mod guesses;
mod learnt;
mod lengths;
mod most_fractional;
mod past;
mod pseudo_costs;
mod rounding;
mod shares;
mod splits;
mod wholes;

pub use diving::DiveHeuristic;
pub use exchanging::ExchangeHeuristic;
pub use first::FirstRule;
pub use most_fractional::MostFractionalRule;
pub use pseudo_costs::PseudoCostRule;
pub use rounding::RoundHeuristic;
