//! Exact checks of combinations of rows and bounds: cuts, bounds, emptiness and single bounds.
//!
//! No check takes memory. One that isn't given costs takes time in the terms that its combination adds up, and in
//! sorting the columns that they touch, and none in the other columns; at costs it passes over all columns once, and so
//! it does for each row of the pool, whose scope is compared with the box.
#![tactic(auto)]

mod aggregate;
mod calls;
mod checks;
mod entries;
mod faults;
mod laws;
mod lookup;
mod parts;
mod pricing;
mod reductions;
mod resting;
mod rows;
mod scratch;
mod sparse;
mod splits;
mod walks;

pub use calls::{
    aggregate_row, derive, empties, empties_over, lower_bound, lower_bound_over, reduction,
};
pub use cip_frac::Frac;
pub use cip_lin::{Bounds, Row, RowFault, Sides, Term};
pub use cip_node_rules::MOST_MULTIPLES;
pub use faults::{CutFault, FaultPlace};
pub use laws::{
    aggregates_are_sums, bounds_are_those, rows_are_rounded_where_they_can, sides_are_those,
    what_does_not_rest_is_valid,
};
pub use pricing::{BlockPoint, BoundTree, Priced};
pub use resting::rests_on_cutoff;
pub use rows::{PoolRow, Rows};
pub use scratch::Scratch;
pub use sparse::SparseRow;
pub use splits::{FormTerm, SplitCut, SplitFormFault, SplitSide};
