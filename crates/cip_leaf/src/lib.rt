//! The least cost of a leaf with continuous columns.
#![tactic(auto)]

mod answers;
mod by_basis;
mod decided;
mod few_moves;
mod first_values;
mod leaves;
mod lists;
mod rows;
mod whole_leaves;

pub use answers::{LeafAnswer, Shown};
pub use leaves::leaf;
