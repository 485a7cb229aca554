//! Split cuts: a whole form is at most a whole number or at least the next one, and a row that follows on both sides of
//! that holds at each point whose whole columns are whole.
//!
//! The check takes no memory, and time by the terms of its two combinations and of its form.
#![tactic(auto)]

mod calls;
mod form_sums;
mod forms;
mod laws;
mod split_rows;

pub use calls::{split_rests_on_cutoff, split_row};
pub use laws::split_cuts_are_split_rows;
