//! How a search ends by what is left of it: the least bound, the parked leaf that is to be shown, and the gap that was
//! asked for.
#![tactic(auto)]

mod bounds;
mod ends;
mod gaps;
mod worst;

pub use bounds::{bound_held, capped, flat, is_no_more, least_of, less_of};
pub use cip_report::{Answer, Ended, Held};
pub use ends::ended_at;
pub use gaps::reaches_gap;
pub use worst::{Worst, least_left, worse, worst_bound};
