//! What a tree, or multipliers with trees, show; and why they don't.
use cip_cert::CutFault;
use cip_frac::Frac;

/// What is shown of points.
#[derive(Clone, Copy, PartialEq, Eq)]
pub enum TreeBound {
    /// They cost at least this much.
    Finite(Frac),
    /// There is none.
    NoPoint,
}

/// Why a tree shows nothing: the first fault in the order of the tree, a node before its low half, and that before its
/// high half. A node has a number: the root is 1, and the halves of node `n` are `2 * n` and `2 * n + 1`.
#[derive(Clone, Copy, PartialEq, Eq)]
pub enum TreeFault {
    /// A split has 64 splits above it.
    TooDeep,
    /// The column of the split at this node isn't there, or is neither a whole one that is plain nor one whose choice
    /// is open; or it is whole, and its number has a size above 2^101, or a half has no whole value of that column.
    BadSplit { node: u128 },
    /// The check of the leaf at this node.
    At { node: u128, fault: CutFault },
}

/// Why multipliers with trees show nothing: the first fault, where multipliers come before the columns of no block, and
/// those before the blocks.
#[derive(Clone, Copy, PartialEq, Eq)]
pub enum LagrangeFault {
    /// The multiplier of this row, a master row by its number in the program, isn't 0, and the row lacks the side that
    /// it uses: the low one above 0, the high one below 0.
    NoSide { row: u32 },
    /// What is left of the cost of this column, which is of no block, has no least value in the box.
    NoRest { col: u32 },
    /// The check of this block's tree.
    Tree { block: u32, fault: TreeFault },
    /// An operation overflows.
    Wide,
}
