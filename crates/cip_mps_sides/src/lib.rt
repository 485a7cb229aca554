//! The sides of a row of a free MPS text, by its type, its right-hand side and its value in RANGES.
#![tactic(auto)]

mod kept_rows;
mod sides;

pub use kept_rows::row_sides;
pub use sides::{is_free_kind, is_wide};
