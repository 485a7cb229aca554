//! Programs that fall into blocks, as pricing takes them, and their lower bounds by trees of combinations, and by
//! multipliers of master rows with a tree for each block.
//!
//! A pricer isn't trusted: it brings a tree that bounds its block, and the check of the tree shows the bound. No check
//! takes memory.
#![tactic(auto)]

mod answers;
mod building;
mod calls;
mod free;
mod lagrangian;
mod laws;
mod multipliers;
mod owners;
mod parts;
mod picking;
mod places;
mod regions;
mod scratches;
mod splits;
mod trees;

pub use answers::{LagrangeFault, TreeBound, TreeFault};
pub use calls::tree_bound;
pub use cip_model::Program;
pub use free::add_free;
pub use lagrangian::lagrange;
pub use laws::{halves_have_wholes, trees_bound_nodes};
pub use multipliers::use_multipliers;
pub use parts::{Decomposed, Subproblem};
pub use regions::TreeRegion;
pub use scratches::{BlockScratch, LagrangeScratch};
