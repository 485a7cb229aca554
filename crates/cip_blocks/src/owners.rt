//! The blocks of columns, found in one pass over the rows.
ghost use Rattle.std.specs.Prelude.{◌≡◌, length, vec_len, IfOk};
ghost use Rattle.cip_problem.specs.Activity.{StandsBelow};
ghost use Rattle.cip_problem.specs.WellFormed.{IsWellFormed, columns};
ghost use Rattle.cip_text_rules.specs.BlockOwners as plain;
ghost use Rattle.cip_blocks.specs.OpenColumns.{has_open_owned};

use cip_lin::Row;
use cip_model::Program;
use std::alloc::{AllocError, Global};

/// The block of each column, if a block has an entry of it; and whether a column has entries in two blocks, of which
/// the first then stands for it.
#[derive(Drop)]
pub(crate) struct Owners {
    pub(crate) blocks: Vec<Option<u32>>,
    pub(crate) links: bool,
}

impl Owners {
    ghost use Rattle.cip_blocks.specs.OwnersKept.{owners_shown};

    /// Takes a row, whose entries count where it is of a block.
    fn take_row(&mut self, row_block: Option<u32>, row: &Row)
        requires { StandsBelow (vec_len self.old.blocks) row.now.terms }
        ensures owned { owners_shown self.new ≡ plain.row_owned row_block row.now (owners_shown self.old) }
        ensures same { vec_len self.new.blocks ≡ vec_len self.old.blocks }
    {
        let Some(block) = row_block else {
            return;
        };
        for term in row.terms() {
            let column = term.col as usize;
            match self.blocks[column] {
                None => self.blocks[column] = Some(block),
                Some(owner) => self.links = self.links || owner != block,
            }
        }
    }

    /// The owners of a program's columns, by the block of each row.
    pub(crate) fn of(
        alloc: Global,
        program: &Program,
        row_blocks: &[Option<u32>],
    ) -> Result<Owners, AllocError>
        requires { length row_blocks.now ≡ length program.now.row_names }
        ensures formed { IfOk result (λ _. IsWellFormed program.now) }
        ensures owned { IfOk result (λ owners. owners_shown owners ≡ plain.owners_of program.now row_blocks.now) }
        ensures sized { IfOk result (λ owners. vec_len owners.blocks ≡ columns program.now) }
    {
        let rows = program.rows();
        let mut blocks = Vec::new(alloc);
        blocks.resize(program.columns(), None)?;
        let mut owners = Owners {
            blocks,
            links: false,
        };
        for at in 0..rows.len() {
            owners.take_row(row_blocks[at], &rows[at]);
        }
        Ok(owners)
    }

    /// Whether a column of a block lacks a bound.
    pub(crate) fn has_open(&self, program: &Program) -> bool
        requires { vec_len self.now.blocks ≡ columns program.now }
        ensures { result ≡ has_open_owned program.now.bounds self.now.blocks.items }
    {
        let bounds = program.bounds().as_slice();
        for column in 0..self.blocks.len() {
            let sides = &bounds[column];
            let is_open = sides.low.is_none() || sides.high.is_none();
            if self.blocks[column].is_some() && is_open {
                return true;
            }
        }
        false
    }
}
