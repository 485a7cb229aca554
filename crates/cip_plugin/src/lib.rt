//! The interfaces of plugins, and what passes between them and the search; and their seats, the steps that change
//! those, and the lives that plugins lead, as definitions and laws.
#![tactic(auto)]

mod asking;
mod boxed;
mod called;
mod faults;
mod keys;
mod kinds;
mod kits;
mod laws;
mod plugins;
mod proposals;
mod stages;
mod views;

pub use asking::{Given, Question};
pub use boxed::{AnyPlugin, Tells};
pub use faults::WishFault;
pub use keys::Key;
pub use kinds::Kind;
pub use kits::{Kit, Spent};
pub use laws::{each_is_asked_once, keys_are_ranked, lives_stay_told, runs_are_told, traces_tell};
pub use plugins::{
    BranchRule, ConsHandler, EventHandler, Heuristic, Plugin, Pricer, Propagator, Separator,
};
pub use proposals::{Cut, Enforced, Guess, Proposal, Reduction, Split, Wish};
pub use stages::Stage;
pub use views::View;
