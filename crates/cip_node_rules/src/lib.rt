//! What is done with a node by the look of its box and of a point: whether it is empty or a leaf, whether it is
//! pruned, where it is split, and whether its bound may be rounded; and two decisions of the checks of combinations:
//! how many entries one may have, and which coefficients let a row be rounded.
#![tactic(auto)]

mod choices;
mod columns;
mod lengths;
mod looks;
mod pruning;
mod roots;
mod rounding;
mod splits;
mod values;

pub use choices::{choice_column, chosen_choice, unallowed_column};
pub use columns::{fractional_column, has_whole, lacking_column, open_column};
pub use lengths::{MOST_MULTIPLES, are_too_many, limit_agrees};
pub use looks::{Looked, look_at};
pub use pruning::matters;
pub use roots::rounded_least;
pub use rounding::stops;
pub use splits::{SplitPlace, chosen_place, middle, moved, splits_leave_both};
pub use values::{are_whole, rounded_bound};
