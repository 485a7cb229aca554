//! `run`, all that the program `cip` does: words in, bytes out; its parts once a program is read: it is solved, or a
//! point is checked in it, and the answer is written; and the built-in plugins, which are made in the function that
//! makes the call, so that no box leaves it.
#![tactic(auto)]

mod bare;
mod builtins;
mod checking;
mod laws;
mod running;
mod solving;

pub use bare::no_plugins;
pub use builtins::run_with_builtins;
pub use checking::check_and_report;
pub use cip_input::{FaultyText, Plain, Task, Words, read_task, refusals_tell};
pub use cip_plugin::Kit;
pub use cip_report::Drawn;
pub use cip_solve::{Log, Mark};
pub use laws::{bounds_are_told, points_are_told};
pub use running::{run, say};
pub use solving::{solve_and_report, solve_drawn};
