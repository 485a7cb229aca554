//! The roster: it keeps the plugins of a search, calls them in their order, and writes down what it did.
#![tactic(auto)]

mod calling;
mod calls;
mod closing;
mod delivering;
mod laws;
mod moves;
mod nexts;
mod rankings;
mod rosters;
mod single;
mod slots;
mod starting;
mod steps;
mod turns;
mod wishing;

pub use cip_plugin::WishFault;
pub use laws::{givers_are_seated, lives_begin_told, plugins_are_kept};
pub use rosters::{Roster, Seated};
