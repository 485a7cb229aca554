//! Dictionaries of the simplex method over exact fractions.
#![tactic(auto)]

mod dict;
mod entries;
mod exchange;
mod fault;
mod first;
mod flip;
mod form_values;
mod forms;
mod kept;
mod laws;
mod lines;
mod listed;
mod lists;
mod moved;
mod near_sums;
mod numbers;
mod pivots;
mod rows;
mod settle;
mod spare;
mod values;
mod whole;
mod whole_entries;
mod whole_sums;
mod whole_turns;

pub use cip_bland::{EntryPlace, Line, Move, Stand};
pub use cip_frac::Frac;
pub use dict::Dict;
pub use fault::{FirstFault, MoveFault, OutOfRange};
pub use laws::{sparse_lines_tell, whole_lines_tell};
pub use spare::Spare;
