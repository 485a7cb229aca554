//! What the master program is asked of, and what multipliers and prices show.
use cip_columns::ColumnPool;
use cip_frac::Frac;
use cip_lagrange::Decomposed;
use cip_lin::Bounds;
use cip_model::Program;

/// A program that falls into blocks, a box of it, and the points of its blocks that are held, lent to the master
/// program.
#[derive(Clone, Copy, Drop)]
pub struct MasterTask<'a> {
    /// The program.
    pub program: &'a Program,
    /// Its blocks.
    pub blocks: &'a Decomposed,
    /// The sides of each column of the program in the box.
    pub bounds: &'a Bounds,
    /// The points that are held. Those that lie in the box count.
    pub pool: &'a ColumnPool,
}

/// Multipliers and prices, with what they leave.
#[derive(Drop)]
pub struct Shown {
    /// A multiplier for each master row, by rising number of the row.
    pub multipliers: Vec<Frac>,
    /// A price for each block, which its points come to at least at what is left of the costs.
    pub prices: Vec<Frac>,
    /// What the multipliers leave of the cost of each column.
    pub rests: Vec<Frac>,
}
