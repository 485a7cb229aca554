//! The work on a node of a search.
#![tactic(auto)]

mod bounding;
mod branching;
mod ending;
mod ends;
mod leaves;
mod looks;
mod process;
mod rounds;
mod settling;
mod starts;
mod works;

pub use bounding::{Bounded, Found};
pub use cip_core::{Asked, cost_of, root_bound};
pub use cip_relax::Mark;
pub use ending::end_leaf;
pub use ends::{NodeEnd, NodeRecord};
pub use starts::Starts;
pub use works::NodeWork;
