//! What came of an answer for a block.
use crate::offering::Growth;
use cip_cert::BoundTree;
use cip_lagrange::TreeBound;

/// A tree that the check accepts.
#[derive(Drop)]
pub struct Accepted {
    /// The tree.
    pub tree: BoundTree,
    /// What it shows of the block's points in the box.
    pub bound: TreeBound,
}

/// What came of an answer for a block.
#[derive(Drop)]
pub struct BlockAnswer {
    /// What became of the pool as its points were offered.
    pub growth: Growth,
    /// The tree, if it brought one that the check accepts.
    pub accepted: Option<Accepted>,
}
