//! Programs: names, rows, costs, whole columns and bounds, and the test of a point.
#![tactic(auto)]

mod blocks;
mod checks;
mod groups;
mod limits;
mod name_hints;
mod name_order;
mod names;
mod parts;
mod programs;
mod rays;
mod verdicts;
mod whole_costs;

pub use blocks::{Blocks, MOST_BLOCKS};
pub use cip_frac::Frac;
pub use cip_lin::{Bounds, Choices, Combo, Row, Side, Term};
pub use limits::{LONGEST_NAME, LONGEST_TEXT, MOST_COLUMNS, MOST_ENTRIES, MOST_ROWS, limits_agree};
pub use names::Names;
pub use parts::{Parts, Sense};
pub use programs::Program;
pub use rays::shown_rays_fall;
pub use verdicts::{Place, Verdict};
pub use whole_costs::are_costs_whole;
