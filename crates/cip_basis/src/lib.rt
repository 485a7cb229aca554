//! A basis of a linear program: guessed over whole numbers of 64 bits, with square systems solved modulo a prime; and
//! what it shows: a point and multipliers that are solved exactly, and tested.
#![tactic(auto)]

mod anew;
mod basis;
mod checks;
mod combos;
mod dual;
mod elimination;
mod fixed;
mod fractions;
mod given;
mod guesses;
mod lists;
mod long;
mod matrix;
mod mended_points;
mod mending;
mod moves;
mod multipliers;
mod near;
mod placement;
mod primal;
mod problem;
mod residues;
mod rounded;
mod rows;
mod safe;
mod scaling;
mod shown;
mod stops;
mod systems;
mod table;
mod tests;
mod values;
mod variables;

pub use basis::Basis;
pub use cip_cert::Scratch;
pub use given::Given;
pub use guesses::{Guess, Outcome};
pub use multipliers::{RowMultiplier, rounded_outward};
pub use near::{basis_point, point_cost, rounded_point};
pub use problem::Problem;
pub use safe::{Safe, safe_bound};
pub use shown::{Shown, show, show_anew};
pub use systems::{Direction, Length, System, common_denominator, times_whole};
pub use variables::Standing;
