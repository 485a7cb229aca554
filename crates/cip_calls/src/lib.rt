//! Plugins are asked while a node is in work, what they propose is judged before anything changes, and what happened is
//! told to them.
#![tactic(auto)]

mod asks;
mod cutoffs;
mod cuts;
mod enforcing;
mod guesses;
mod judged;
mod judging;
mod laws;
mod names;
mod plugins;
mod proposals;
mod reductions;
mod rosters;
mod rounds;
mod rows;
mod rules;
mod scratches;
mod silence;
mod split_cuts;
mod splits;
mod verdicts;

pub use asks::{Asks, Round, Turn};
pub use cip_core::{Core, PostsolveFault, Presolved, postsolve};
pub use cip_domain::Side;
pub use cutoffs::judge_cutoff;
pub use cuts::judge_cut;
pub use enforcing::{Verdict, enforce};
pub use guesses::judge_guess;
pub use judged::{JudgeFault, Judged, NodeFault};
pub use judging::Came;
pub use laws::uses_join;
pub use plugins::{Last, Plugins, view_of};
pub use proposals::{Ruled, judge, judge_in_work};
pub use reductions::judge_reduction;
pub use rows::judge_row;
pub use rules::ask_rules;
pub use scratches::Scratches;
pub use silence::NoPlugins;
pub use split_cuts::judge_split_cut;
pub use splits::{Parted, judge_split, split_refusal};
