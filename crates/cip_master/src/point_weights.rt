//! The weight of one more point in the rows of the master program.
ghost use Rattle.std.specs.Prelude.{◌≡◌, ◌<◌, ◌++◌, ◌∷◌, [], length, Ok, Some, None, OnOk, MatchResult, slice_set, slice_index_or};
ghost use Rattle.cip_rational.specs.Rational.{oneℚ};
ghost use Rattle.cip_problem.specs.Program.{no_row};
ghost use Rattle.cip_problem.specs.Activity.{StandsBelow};
ghost use Rattle.cip_pricing.specs.MasterForms.{weight_sides};
ghost use Rattle.cip_lagrange.specs.Decompositions.{IsDecompositionOf};
ghost use Rattle.cip_master.specs.BlockSums.{coefficient_in};
ghost use Rattle.cip_master.specs.WeightTerms.{with_weight, weighted};
ghost use Rattle.cip_master.specs.KeptMasters.{IsPointFault, master_row_at};

use crate::masters::{MasterFault, MasterProgram};
use crate::sums::block_sum;
use cip_columns::HeldPoint;
use cip_frac::{Frac, Wide};
use cip_lagrange::{Decomposed, Program};
use cip_lin::{Row, Sides, Term};
use std::alloc::AllocError;

/// Puts a term at the end of a row. `Err` where a growth was refused.
fn append(own: &mut Row, col: u32, coef: Frac) -> Result<(), AllocError>
    ensures { OnOk result (own.new ≡ record own.old {
      terms = own.old.terms ++ record { column = col; coefficient = coef } ∷ [];
    }) }
{
    match own.append(Term { col, coef }) {
        Ok(()) => Ok(()),
        Err(_) => Err(AllocError),
    }
}

/// Puts a coefficient on a weight at the end of a row; 0 gives no term. `Err` where a growth was refused.
fn put_weight(own: &mut Row, column: u32, coefficient: Frac) -> Result<(), AllocError>
    ensures { OnOk result (own.new ≡ with_weight column coefficient own.old) }
{
    if coefficient.is_positive() || coefficient.is_negative() {
        append(own, column, coefficient)
    } else {
        Ok(())
    }
}

/// Puts a coefficient on a weight at the end of one of some rows. `Err` where a growth was refused.
fn weigh(rows: &mut [Row], at: usize, column: u32, coefficient: Frac) -> Result<(), AllocError>
    requires { at < length rows.old }
    ensures { OnOk result (rows.new ≡ slice_set rows.old at
        (with_weight column coefficient (slice_index_or rows.old at no_row))) }
{
    put_weight(&mut rows[at], column, coefficient)
}

/// What a row comes to at a point, of whose block the columns alone count.
fn coefficient_of(row: &Row, blocks: &Decomposed, held: &HeldPoint) -> Result<Frac, Wide>
    requires stands { StandsBelow (length blocks.now.column_owners.items) row.now.terms }
    requires places { length blocks.now.places.items ≡ length blocks.now.column_owners.items }
    ensures { result ≡ coefficient_in blocks.now held.now row.now.terms }
{
    let owners = blocks.column_owners.as_slice();
    let places = blocks.places.as_slice();
    block_sum(row.terms(), owners, places, held.block(), held.values())
}

/// A master row, by its place among them.
fn master_row<'a>(program: &'a Program, blocks: &Decomposed, at: usize) -> &'a Row
    requires made { IsDecompositionOf program.now blocks.now }
    requires at { at < length blocks.now.blocks.master_rows }
    ensures { result.now ≡ master_row_at program.now blocks.now at }
{
    let rows = program.rows();
    let numbers = blocks.blocks.master_rows();
    &rows[numbers[at] as usize]
}

/// What a master row comes to at a point.
fn coefficient_at(
    program: &Program,
    blocks: &Decomposed,
    held: &HeldPoint,
    at: usize,
) -> Result<Frac, Wide>
    requires made { IsDecompositionOf program.now blocks.now }
    requires at { at < length blocks.now.blocks.master_rows }
    ensures { result ≡ coefficient_in blocks.now held.now (master_row_at program.now blocks.now at).terms }
{
    let _columns = program.columns();
    coefficient_of(master_row(program, blocks, at), blocks, held)
}

/// Puts the coefficients of a point at the end of the master rows.
fn put_weights(
    masters: &mut [Row],
    program: &Program,
    blocks: &Decomposed,
    held: &HeldPoint,
    column: u32,
) -> Result<(), MasterFault>
    requires made { IsDecompositionOf program.now blocks.now }
    requires long { length masters.old ≡ length blocks.now.blocks.master_rows }
    ensures { MatchResult result
        (λ _. weighted (coefficient_in blocks.now held.now) column program.now.rows 0
        blocks.now.blocks.master_rows masters.old ≡ Ok masters.new)
        (IsPointFault program.now blocks.now held.now) }
{
    for at in 0..masters.len() {
        match coefficient_at(program, blocks, held, at) {
            Ok(coefficient) => weigh(masters, at, column, coefficient)?,
            Err(_) => return Err(MasterFault::Wide),
        }
    }
    Ok(())
}

impl MasterProgram {
    /// Puts the coefficients of a point in the master rows.
    pub(crate) fn put_in_masters(
        &mut self,
        program: &Program,
        blocks: &Decomposed,
        held: &HeldPoint,
        column: u32,
    ) -> Result<(), MasterFault>
        requires made { IsDecompositionOf program.now blocks.now }
        requires long { length self.old.masters.items ≡ length blocks.now.blocks.master_rows }
        ensures masters { MatchResult result
            (λ _. weighted (coefficient_in blocks.now held.now) column program.now.rows 0
            blocks.now.blocks.master_rows self.old.masters.items ≡ Ok self.new.masters.items)
            (IsPointFault program.now blocks.now held.now) }
        ensures sums { self.new.sums.items ≡ self.old.sums.items }
        ensures bounds { self.new.bounds ≡ self.old.bounds }
        ensures costs { self.new.costs.items ≡ self.old.costs.items }
        ensures ids { self.new.ids.items ≡ self.old.ids.items }
        ensures seen { self.new.seen ≡ self.old.seen }
    {
        put_weights(self.masters.as_mut_slice(), program, blocks, held, column)
    }

    /// Puts the weight of a point of a block in the block's row, with its sides, its cost and its id. `Err` where a
    /// growth was refused.
    pub(crate) fn put_last(
        &mut self,
        block: usize,
        column: u32,
        cost: Frac,
        id: u32,
    ) -> Result<(), AllocError>
        requires { block < length self.old.sums.items }
        ensures sums { OnOk result (self.new.sums.items ≡ slice_set self.old.sums.items block
            (with_weight column oneℚ (slice_index_or self.old.sums.items block no_row))) }
        ensures bounds { OnOk result (self.new.bounds ≡ self.old.bounds ++ weight_sides ∷ []) }
        ensures costs { OnOk result (self.new.costs.items ≡ self.old.costs.items ++ cost ∷ []) }
        ensures ids { OnOk result (self.new.ids.items ≡ self.old.ids.items ++ id ∷ []) }
        ensures masters { OnOk result (self.new.masters.items ≡ self.old.masters.items) }
        ensures seen { OnOk result (self.new.seen ≡ self.old.seen) }
    {
        weigh(self.sums.as_mut_slice(), block, column, Frac::one())?;
        self.bounds.push(Sides {
            low: Some(Frac::zero()),
            high: None,
        })?;
        self.costs.push(cost)?;
        self.ids.push(id)?;
        Ok(())
    }
}
