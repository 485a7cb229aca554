//! The work on a node with plugins: rounds, linear programs, a leaf or a split, and the calls between them; the search
//! for a point of least cost over it, with plugins or without; and a kit of plugins, as a search takes it up and gives
//! it back.
#![tactic(auto)]

mod aside;
mod asking;
mod ending;
mod ends;
mod finish;
mod kit_lives;
mod kits;
mod laws;
mod logs;
mod looking;
mod node_turns;
mod outsets;
mod parting;
mod passes;
mod processing;
mod reached;
mod reducing;
mod separating;
mod solving;
mod telling;
mod turns;
mod works;

pub use aside::set_aside;
pub use asking::Asking;
pub use cip_calls::{Core, NoPlugins, Plugins, Presolved, Scratches};
pub use cip_node::{Asked, Mark, NodeEnd, NodeRecord, NodeWork};
pub use cip_presolve::{PresolveEnd, presolve};
pub use ends::Done;
pub use kit_lives::lives_are_whole;
pub use kits::{begin, end, is_bare, is_few};
pub use laws::answers_fit;
pub use logs::Log;
pub use processing::process;
pub use solving::{Options, solve, solve_by, unsearched};
pub use works::{Alone, Works};
