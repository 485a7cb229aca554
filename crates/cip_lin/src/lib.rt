//! Linear rows and boxes over exact fractions.
#![tactic(auto)]

mod boxes;
mod choices;
mod combos;
mod extremes;
mod outcomes;
mod rows;
mod sides;

pub use boxes::{Bounds, Sides};
pub use choices::{Choice, Choices};
pub use cip_frac::Frac;
pub use combos::{ColumnMultiple, Combo, RowId, RowMultiple};
pub use extremes::{add_least, least};
pub use outcomes::Least;
pub use rows::{Row, RowFault, Term};
pub use sides::Side;
