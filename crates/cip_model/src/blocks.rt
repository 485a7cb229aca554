//! The blocks of a program.
ghost use Rattle.std.specs.Prelude.{◌≡◌, ◌<◌, ◌≤◌, length, All, IfSome, IfOk};
ghost use Rattle.cip_problem.specs.Limits.{most_columns};
ghost use Rattle.cip_problem.specs.BlockParts.{blocks_by};
ghost use Rattle.cip_problem.specs.BlockMeaning.{part_at};

use crate::groups::Groups;
use std::alloc::{AllocError, Global};
use std::marker::Model;

/// The most blocks of a program.
pub const MOST_BLOCKS: usize = 4_096;

/// The blocks of a program, by their numbers from 0, with the rows and columns of each; its master rows, which are of
/// no block; and its columns of no block. Rows and columns stand by rising number.
#[derive(Drop)]
pub struct Blocks {
    by_rows: Groups,
    by_columns: Groups,
}

impl Model for Blocks {
    ghost use Rattle.cip_problem.specs.BlockParts as shapes;
    ghost use Rattle.cip_problem.specs.BlockCodes.{blocks_code};

    ghost Value = { shapes.Blocks };

    ghost coded = { blocks_code };

    ghost use Rattle.cip_model.specs.BlocksInside.{blocks_shown, AreAsMany};

    ghost view = { blocks_shown };

    ghost invariant = { AreAsMany };
}

impl Blocks {
    /// So many blocks, by the block of each row and of each column, if it has one.
    pub fn new(
        alloc: Global,
        count: usize,
        row_blocks: &[Option<u32>],
        column_blocks: &[Option<u32>],
    ) -> Result<Blocks, AllocError>
        requires rows_below { All (λ block. IfSome block (λ b. b < count)) row_blocks.now }
        requires columns_below { All (λ block. IfSome block (λ b. b < count)) column_blocks.now }
        requires few_rows { length row_blocks.now ≤ most_columns }
        requires few_columns { length column_blocks.now ≤ most_columns }
        ensures { IfOk result (λ blocks. blocks ≡ blocks_by count row_blocks.now column_blocks.now) }
    {
        let by_rows = Groups::of(alloc, count, row_blocks)?;
        let by_columns = Groups::of(alloc, count, column_blocks)?;
        Ok(Blocks {
            by_rows,
            by_columns,
        })
    }

    /// How many blocks there are.
    pub fn count(&self) -> usize
        ensures { result ≡ length self.now.blocks }
    {
        self.by_rows.groups.len()
    }

    /// The rows of a block, which is below their number.
    pub fn rows(&self, block: usize) -> &[u32]
        requires { block < length self.now.blocks }
        ensures { result.now ≡ (part_at self.now block).rows }
    {
        let rows = &self.by_rows.groups[block];
        rows.as_slice()
    }

    /// The columns of a block, which is below their number.
    pub fn columns(&self, block: usize) -> &[u32]
        requires { block < length self.now.blocks }
        ensures { result.now ≡ (part_at self.now block).columns }
    {
        let columns = &self.by_columns.groups[block];
        columns.as_slice()
    }

    /// The rows of no block.
    pub fn master_rows(&self) -> &[u32]
        ensures { result.now ≡ self.now.master_rows }
    {
        self.by_rows.rest.as_slice()
    }

    /// The columns of no block.
    pub fn free_columns(&self) -> &[u32]
        ensures { result.now ≡ self.now.free_columns }
    {
        self.by_columns.rest.as_slice()
    }
}
