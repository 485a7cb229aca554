//! The pool of columns: points of blocks that pricing has found.
#![tactic(auto)]

mod inside;
mod laws;
mod points;
mod pools;
mod prints;

pub use inside::Inside;
pub use laws::{inside_is_in_the_box, limit_agrees};
pub use points::HeldPoint;
pub use pools::{Added, ColumnPool, MOST_POINTS};
