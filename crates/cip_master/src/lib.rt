//! The master program of held points, solved: prices, or multipliers that show that there is no mixture.
//!
//! It is kept from round to round: the points that the pool got since are put behind the others, and the simplex method
//! goes on from where it ended.
#![tactic(auto)]

mod answers;
mod asking;
mod checks;
mod factors;
mod first;
mod kept;
mod laws;
mod lowering;
mod masters;
mod point_weights;
mod points;
mod reading;
mod showing;
mod starts;
mod sums;
mod taking;
mod tasks;
mod verdicts;
mod weights;

pub use answers::{MasterAnswer, MasterCause, PointWeight, Weights};
pub use checks::check_point;
pub use kept::Master;
pub use laws::masters_stay_kept;
pub use masters::{MasterFault, MasterProgram};
pub use points::is_held_in;
pub use showing::show;
pub use sums::part_sum;
pub use taking::{Taken, take_point};
pub use tasks::{MasterTask, Shown};
pub use verdicts::PointVerdict;
