//! Answers and their texts.
#![tactic(auto)]

mod buffer;
mod checks;
mod drawn;
mod figures;
mod traces;
mod writing;

pub use checks::{check_status, report_check};
pub use cip_leaf::Shown;
pub use drawn::{Drawn, report_self};
pub use figures::{Answer, Ended, Held};
pub use writing::report;
