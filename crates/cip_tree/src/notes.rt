//! What a node's own work changed.

use cip_domain::{Frac, Side};

/// A value for one side of a column; it counts where the side is weaker or open.
#[derive(Clone, Copy)]
pub(crate) struct Note {
    // the number of the column, from 0
    pub(crate) col: u32,
    pub(crate) side: Side,
    pub(crate) value: Frac,
}
