//! What is kept of the blocks of a program.
use cip_model::{Blocks, Bounds, Choices, Row};

/// What a block asks of its points (a pricing subproblem). Its columns are numbered from 0 by rising number in the
/// program.
#[derive(Drop)]
pub struct Subproblem {
    /// The block's rows, by rising number in the program. They name columns by their numbers in the block.
    pub rows: Vec<Row>,
    /// Whether each of its columns takes whole values only.
    pub whole: Vec<bool>,
    /// What is chosen of each of its columns: open, with the column's own sides, or plain; columns past the end are
    /// plain.
    pub choices: Choices,
    /// The sides of each of its columns in the program.
    pub bounds: Bounds,
}

/// A program that falls into blocks: whose its columns and rows are, and what each block asks of its points.
#[derive(Drop)]
pub struct Decomposed {
    /// The rows and columns of each block, and those of no block, by rising number.
    pub blocks: Blocks,
    /// The block of each column, `None` where it is of no block.
    pub column_owners: Vec<Option<u32>>,
    /// The block of each row, `None` for a master row.
    pub row_owners: Vec<Option<u32>>,
    /// The place of each column among those of its owner, from 0: of its block, or of no block.
    pub places: Vec<u32>,
    /// What each block asks of its points, by the number of the block.
    pub subproblems: Vec<Subproblem>,
}
