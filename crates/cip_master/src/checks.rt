//! The test of a point of a block.
ghost use Rattle.std.specs.Prelude.{◌≡◌, ◌≤◌, ◌<◌, ◌&&◌, not, length, All};
ghost use Rattle.cip_rational.specs.Rational.{zeroℚ, is_whole};
ghost use Rattle.cip_problem.specs.Limits.{most_rows, most_columns};
ghost use Rattle.cip_problem.specs.Activity.{StandsBelow};
ghost use Rattle.cip_problem.specs.Choices.{choice_at};
ghost use Rattle.cip_lin.specs.RowSums.{activity_from};
ghost use Rattle.cip_model.specs.Verdicts.{is_kept, first_outside, first_not_whole};
ghost use Rattle.cip_lagrange.specs.Decompositions.{IsDecompositionOf};
ghost use Rattle.cip_master.specs.BlockVerdicts.{row_fault, first_faulty, verdict_on, block_verdict, BlockVerdictSays};

use crate::verdicts::PointVerdict;
use cip_frac::Frac;
use cip_lagrange::{Decomposed, Subproblem};
use cip_lin::{Choices, Row, Sides};
use cip_model::Program;

/// Whether a value of a column lies between its sides, and its choice allows it.
fn is_kept(sides: Sides, choices: &Choices, column: u32, value: Frac) -> bool
    ensures { result ≡ is_kept sides (choice_at choices.now column) value }
{
    sides.contains(value) && choices.allows(column, value)
}

/// The first column whose value is outside its sides, or isn't allowed by its choice.
fn outside(bounds: &[Sides], choices: &Choices, point: &[Frac]) -> Option<u32>
    requires same { length bounds.now ≡ length point.now }
    requires few { length point.now ≤ most_columns }
    ensures { result ≡ first_outside 0 bounds.now choices.now point.now }
{
    for at in 0..point.len() {
        if !is_kept(bounds[at], choices, at as u32, point[at]) {
            return Some(at as u32);
        }
    }
    None
}

/// Whether a value that is to be whole is fractional.
fn is_fractional(whole: bool, value: Frac) -> bool
    ensures { result ≡ (whole && not (is_whole value)) }
{
    whole && !value.is_whole()
}

/// The first whole column whose value is not whole.
fn not_whole(whole: &[bool], point: &[Frac]) -> Option<u32>
    requires same { length whole.now ≡ length point.now }
    requires few { length point.now ≤ most_columns }
    ensures { result ≡ first_not_whole 0 whole.now point.now }
{
    for at in 0..point.len() {
        if is_fractional(whole[at], point[at]) {
            return Some(at as u32);
        }
    }
    None
}

/// The verdict on one row, where its activity is outside its sides or overflows.
fn row_fault(number: u32, row: &Row, point: &[Frac]) -> Option<PointVerdict>
    requires { StandsBelow (length point.now) row.now.terms }
    ensures { result ≡ row_fault number row.now (activity_from zeroℚ row.now.terms point.now) }
{
    let Ok(value) = row.activity(point) else {
        return Some(PointVerdict::Wide { row: number });
    };
    let sides = Sides {
        low: row.low(),
        high: row.high(),
    };
    if sides.contains(value) {
        None
    } else {
        Some(PointVerdict::BreaksRow { row: number, value })
    }
}

/// The first verdict on a row.
fn faulty_row(rows: &[Row], point: &[Frac]) -> Option<PointVerdict>
    requires few { length rows.now ≤ most_rows }
    requires stand { All (λ row. StandsBelow (length point.now) row.terms) rows.now }
    ensures { result ≡ first_faulty 0 rows.now point.now }
{
    for at in 0..rows.len() {
        let verdict = row_fault(at as u32, &rows[at], point);
        if verdict.is_some() {
            return verdict;
        }
    }
    None
}

/// The verdict on a point of what a block asks.
fn check_part(part: &Subproblem, point: &[Frac]) -> PointVerdict
    requires few { length part.now.bounds ≤ most_columns }
    requires few_rows { length part.now.rows.items ≤ most_rows }
    requires flags { length part.now.whole.items ≡ length part.now.bounds }
    requires stand { All (λ row. StandsBelow (length part.now.bounds) row.terms) part.now.rows.items }
    ensures { result ≡ verdict_on (record {
      rows = part.now.rows.items;
      integral = part.now.whole.items;
      choices = part.now.choices;
    })
        part.now.bounds point.now }
{
    if part.bounds.len() != point.len() {
        return PointVerdict::WrongCount;
    }
    if let Some(col) = outside(part.bounds.as_slice(), &part.choices, point) {
        return PointVerdict::BreaksBound { col };
    }
    if let Some(col) = not_whole(part.whole.as_slice(), point) {
        return PointVerdict::BreaksWhole { col };
    }
    match faulty_row(part.rows.as_slice(), point) {
        Some(verdict) => verdict,
        None => PointVerdict::Good,
    }
}

/// The verdict on a list of values as a point of a block, in the program's own sides of the block's columns: the first
/// that is met of the number of values, bounds and choices by column, whole columns, and rows in order.
pub fn check_point(
    program: &Program,
    blocks: &Decomposed,
    block: u32,
    point: &[Frac],
) -> PointVerdict
    requires made { IsDecompositionOf program.now blocks.now }
    requires block { block < length blocks.now.subproblems.items }
    ensures verdict { result ≡ block_verdict program.now blocks.now block point.now }
    ensures says { BlockVerdictSays program.now blocks.now block point.now result }
{
    let _columns = program.columns();
    let part = &blocks.subproblems[block as usize];
    check_part(part, point)
}
