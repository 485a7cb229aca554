//! The master program without points.
ghost use Rattle.std.specs.Prelude.{◌≡◌, ◌<◌, ◌++◌, [], length, map, replicate, Some, None, All, IfOk, OnOk, slice_index, slice_index_or};
ghost use Rattle.cip_problem.specs.Program.{Term, Row, no_row};
ghost use Rattle.cip_problem.specs.Activity.{StandsBelow};
ghost use Rattle.cip_problem.specs.WellFormed.{columns};
ghost use Rattle.cip_lagrange.specs.Numbers.{found};
ghost use Rattle.cip_lagrange.specs.Decompositions.{IsDecompositionOf};
ghost use Rattle.cip_master.specs.BlockSums.{free_term, free_row};
ghost use Rattle.cip_master.specs.FirstRows.{sum_row};
ghost use Rattle.cip_master.specs.KeptMasters.{IsMasterOf};

use crate::masters::MasterProgram;
use crate::sums::owner_at;
use cip_frac::Frac;
use cip_lagrange::{Decomposed, Program};
use cip_lin::{Bounds, Row, Term};
use std::alloc::{AllocError, Global};

/// Puts a term on a column with this owner and this place at the end of a row, where it is of no block.
fn put_at(own: &mut Row, owner: Option<u32>, place: u32, term: Term) -> Result<(), AllocError>
    ensures { OnOk result (own.new ≡ record own.old { terms = own.old.terms ++ free_term owner place term }) }
{
    if owner.is_some() {
        return Ok(());
    }
    let term = Term {
        col: place,
        coef: term.coef,
    };
    match own.append(term) {
        Ok(()) => Ok(()),
        Err(_) => Err(AllocError),
    }
}

/// Puts a term at the end of a row, where it is on a column of no block, whose place it names then.
fn put_free(
    own: &mut Row,
    term: Term,
    owners: &[Option<u32>],
    places: &[u32],
) -> Result<(), AllocError>
    requires stands { term.column < length owners.now }
    requires places { length places.now ≡ length owners.now }
    ensures { OnOk result (own.new ≡ record own.old {
      terms = own.old.terms
          ++ free_term (slice_index_or owners.now term.column None) (slice_index places.now term.column) term;
    }) }
{
    let at = term.col as usize;
    put_at(own, owner_at(owners, at), places[at], term)
}

/// The terms of a row on the columns of no block, which name these by their places. `Err` where memory was refused.
fn free_row(
    alloc: Global,
    row: &Row,
    owners: &[Option<u32>],
    places: &[u32],
) -> Result<Row, AllocError>
    requires stands { StandsBelow (length owners.now) row.now.terms }
    requires places { length places.now ≡ length owners.now }
    ensures { IfOk result (λ own. own ≡ free_row owners.now places.now row.now) }
{
    let mut own = Row::empty(alloc, row.low(), row.high());
    let terms = row.terms();
    for term in terms {
        let Ok(()) = put_free(&mut own, *term, owners, places) else {
            drop(own);
            return Err(AllocError);
        };
    }
    Ok(own)
}

/// The master rows on the columns of no block. `Err` where memory was refused.
fn free_rows(alloc: Global, program: &Program, blocks: &Decomposed) -> Result<Vec<Row>, AllocError>
    requires { IsDecompositionOf program.now blocks.now }
    ensures { IfOk result (λ owns. owns.items
        ≡ map (λ number. free_row blocks.now.column_owners.items blocks.now.places.items
        (slice_index_or program.now.rows number no_row)) blocks.now.blocks.master_rows) }
{
    let rows = program.rows();
    let owners = blocks.column_owners.as_slice();
    let places = blocks.places.as_slice();
    let mut owns = Vec::new(alloc);
    for number in blocks.blocks.master_rows() {
        owns.push(free_row(alloc, &rows[*number as usize], owners, places)?)?;
    }
    Ok(owns)
}

/// The row by which the weights of a block sum to 1, as yet without a weight.
fn sum_row(alloc: Global) -> Row
    ensures { result ≡ sum_row }
{
    Row::empty(alloc, Some(Frac::one()), Some(Frac::one()))
}

/// A row for each block, by which no weights sum to 1. `Err` where memory was refused.
fn sum_rows(alloc: Global, count: usize) -> Result<Vec<Row>, AllocError>
    ensures { IfOk result (λ owns. owns.items ≡ replicate count sum_row) }
{
    let mut owns = Vec::new(alloc);
    for _block in 0..count {
        let Ok(()) = owns.reserve(1) else {
            return Err(AllocError);
        };
        owns.push_reserved(sum_row(alloc));
    }
    Ok(owns)
}

/// The sides at these numbers. `Err` where memory was refused.
#[tactic(auto, using(crate::proofs::NumberSums::sides_more))]
fn sides_at(alloc: Global, bounds: &Bounds, numbers: &[u32]) -> Result<Bounds, AllocError>
    requires { All (λ number. number < length bounds.now) numbers.now }
    ensures { IfOk result (λ kept. kept ≡ found bounds.now numbers.now) }
{
    let mut kept = Bounds::new(alloc, 0)?;
    for number in numbers {
        let Ok(()) = kept.push(bounds.sides(*number)) else {
            drop(kept);
            return Err(AllocError);
        };
    }
    Ok(kept)
}

/// The costs at these numbers. `Err` where memory was refused.
#[tactic(auto, using(crate::proofs::NumberSums::costs_more))]
fn costs_at(alloc: Global, costs: &[Frac], numbers: &[u32]) -> Result<Vec<Frac>, AllocError>
    requires { All (λ number. number < length costs.now) numbers.now }
    ensures { IfOk result (λ kept. kept.items ≡ found costs.now numbers.now) }
{
    let mut kept = Vec::new(alloc);
    for number in numbers {
        kept.push(costs[*number as usize])?;
    }
    Ok(kept)
}

impl MasterProgram {
    /// The master program of a program that falls into blocks in a box, without points: no point of the pool was looked
    /// at. `Err` where memory was refused.
    pub fn new(
        alloc: Global,
        program: &Program,
        blocks: &Decomposed,
        bounds: &Bounds,
    ) -> Result<MasterProgram, AllocError>
        requires made { IsDecompositionOf program.now blocks.now }
        requires box_ { length bounds.now ≡ columns program.now }
        ensures made { IfOk result (IsMasterOf program.now blocks.now bounds.now []) }
        ensures seen { IfOk result (λ master. master.seen ≡ 0) }
    {
        let _columns = program.columns();
        let numbers = blocks.blocks.free_columns();
        let Ok(masters) = free_rows(alloc, program, blocks) else {
            return Err(AllocError);
        };
        let Ok(sums) = sum_rows(alloc, blocks.subproblems.len()) else {
            return Err(AllocError);
        };
        let Ok(costs) = costs_at(alloc, program.costs(), numbers) else {
            return Err(AllocError);
        };
        let Ok(bounds) = sides_at(alloc, bounds, numbers) else {
            return Err(AllocError);
        };
        Ok(MasterProgram {
            masters,
            sums,
            bounds,
            costs,
            ids: Vec::new(alloc),
            seen: 0,
        })
    }
}
