//! The cheapest feasible point so far.
#![tactic(auto)]

mod incumbents;
mod offers;

pub use incumbents::Incumbent;
pub use offers::Offered;
