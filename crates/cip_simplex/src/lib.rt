//! The simplex method by Bland's rule over exact fractions.
#![tactic(auto)]

mod answers;
mod begin;
mod candidates;
mod choice;
mod combos;
mod ends;
mod greedy;
mod greedy_steps;
mod headings;
mod laws;
mod lp;
mod runs;
mod solver;
mod solving;
mod start_moves;
mod starts;
mod steps;
mod ways;

pub use answers::LpAnswer;
pub use cip_dict::{Dict, FirstFault, Line, Spare};
pub use greedy::solve_greedily;
pub use laws::{slack_is_first, starts_are_right};
pub use lp::Lp;
pub use solver::Solver;
pub use solving::{solve, solve_from, solve_fully};
pub use starts::Start;
