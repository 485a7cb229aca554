//! What a pricer brings.
use cip_frac::Frac;
use cip_lin::Combo;

/// A value for each column of a block, by rising number of the column.
#[derive(Drop)]
pub struct BlockPoint {
    /// The values.
    pub values: Vec<Frac>,
}

/// A proof that no point of a block costs less than a bound. It names rows and columns by their places, from 0, among
/// the block's.
#[derive(Drop)]
pub enum BoundTree {
    /// The costs have the bound of this combination.
    Bound(Combo),
    /// There is no point, by this combination.
    Empty(Combo),
    /// The whole column is at most `at` in the low half, and at least `at + 1` in the high half.
    Split {
        col: u32,
        at: i128,
        low: Box<BoundTree>,
        high: Box<BoundTree>,
    },
}

/// Points of a block, and a proof of what its points cost at least.
#[derive(Drop)]
pub struct Priced {
    /// The points.
    pub points: Vec<BlockPoint>,
    /// The proof, where there is one.
    pub tree: Option<BoundTree>,
}
