//! The lines of free MPS: what a line says, at its place in the text; and names that stand once, with their numbers.
#![tactic(auto)]

mod bound_numbers;
mod fields;
mod line;
mod name_index;
mod numbers;
mod place;
mod sayings;
mod set_lines;
mod values;
mod words;

pub use bound_numbers::BoundNumber;
pub use cip_text::{NumberFault, number};
pub use line::{Line, Pair, Pairs};
pub use name_index::NameIndex;
pub use numbers::Number;
pub use place::LinePlace;
pub use sayings::said;
pub use words::{BoundKind, Part, RowKind, sense_of};
