//! What plugins see of the search.
use cip_cert::PoolRow;
use cip_model::{Blocks, Bounds, Combo, Frac, Row};

/// The node in work and the program that is solved, lent for one call.
#[derive(Clone, Copy, Drop)]
pub struct View<'a> {
    /// The number of the node in work.
    pub node: u64,
    /// The node's box.
    pub bounds: &'a Bounds,
    /// The root's box.
    pub root: &'a Bounds,
    /// The program's rows.
    pub own: &'a [Row],
    /// The rows of the pool, by rising id.
    pub pool: &'a [PoolRow],
    /// The cutoff row; before a cost is held it has no side.
    pub cutoff: &'a Option<Row>,
    /// Whether each column is whole.
    pub whole: &'a [bool],
    /// The cost of each column, in the minimised form.
    pub costs: &'a [Frac],
    /// The point of the node's last linear program, where it has one.
    pub point: Option<&'a [Frac]>,
    /// What proves that program's bound, or that it has no point.
    pub combo: Option<&'a Combo>,
    /// The cost held.
    pub held: Option<Frac>,
    /// The last guess that was accepted.
    pub guess: Option<&'a [Frac]>,
    /// The program's blocks, where it has any.
    pub blocks: Option<&'a Blocks>,
}
