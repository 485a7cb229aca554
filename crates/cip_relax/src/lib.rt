//! The linear program of a node: its rows, its answer, and the checks of what that shows.
#![tactic(auto)]

mod asking;
mod bound_laws;
mod guessing;
mod names;
mod relaxed;
mod rows;
mod solvers;

pub use bound_laws::node_programs_tell;
pub use cip_simplex::Start;
pub use relaxed::{Mark, Relaxed, relax_from};
pub use solvers::NodeSolver;
