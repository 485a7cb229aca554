//! The pool of rows: rows that are kept with the boxes in which they are valid.
#![tactic(auto)]

mod built;
mod fingerprints;
mod index;
mod laws;
mod limits;
mod pools;
mod usable;

pub use laws::pools_stay_valid;
pub use limits::{KEPT_POOL_ROWS, MOST_IDS, MOST_POOL_ROWS, limits_agree};
pub use pools::{Added, RowPool};
pub use usable::Usable;
