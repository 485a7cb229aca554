//! The rows of a leaf's program.
ghost use Rattle.std.specs.Prelude.{◌≡◌, ◌++◌, ◌∷◌, [], ◌≤◌, length, map, All, IfOk, MatchResult, false, true};
ghost use Rattle.cip_rational.specs.Rational.{zeroℚ};
ghost use Rattle.cip_problem.specs.Activity.{StandsBelow};
ghost use Rattle.cip_problem.specs.Limits.{most_rows};
ghost use Rattle.cip_problem.specs.RowTerms.{AreTerms};
ghost use Rattle.cip_lin.specs.RowFaults.{CanStandAfter};
ghost use Rattle.cip_lin.specs.RowSums.{activity_from};
ghost use Rattle.cip_search.specs.Wide.{shift_overflows};
ghost use Rattle.cip_search.specs.LeafProgram.{continuous_terms};
ghost use Rattle.cip_search.specs.LeafProgram as program;
ghost use Rattle.cip_leaf.specs.Building.{numbers_from, left_of, IsRowFault, IsRowsFault};

use cip_frac::{Frac, Wide};
use cip_lin::{Row, RowFault as AppendFault, Term};
use std::alloc::{AllocError, Global};

/// Why the rows of a leaf's program were not made.
#[derive(Clone, Copy)]
pub(crate) enum RowsFault {
    /// The fixed part of the row of this number overflows, or what a side leaves of it does.
    Wide(u32),
    /// A growth was refused.
    NoMemory,
}

/// Why one row was not made.
#[derive(Clone, Copy)]
enum RowFault {
    /// Its fixed part overflows, or what a side leaves of it does.
    Wide,
    /// A growth was refused.
    NoMemory,
}

impl From<AllocError> for RowFault {
    ghost use Rattle.std.specs.Prelude.{◌≡◌};
    ghost use Rattle.cip_leaf.specs.declared.rows.RowFault.{RowFault};

    ghost from_gives = { λ _ fault. fault ≡ RowFault.NoMemory };

    fn from(_error: AllocError) -> RowFault {
        RowFault::NoMemory
    }
}

impl From<AllocError> for RowsFault {
    ghost use Rattle.std.specs.Prelude.{◌≡◌};
    ghost use Rattle.cip_leaf.specs.declared.rows.RowsFault.{RowsFault};

    ghost from_gives = { λ _ fault. fault ≡ RowsFault.NoMemory };

    fn from(_error: AllocError) -> RowsFault {
        RowsFault::NoMemory
    }
}

/// A side less the fixed part of its row.
fn shifted(side: Option<Frac>, part: Frac) -> Result<Option<Frac>, Wide>
    ensures { MatchResult result
        (λ left. (shift_overflows side part ≡ false) × (left ≡ program.shifted side part))
        (λ _. shift_overflows side part ≡ true) }
{
    match side {
        Some(side) => Ok(Some(side.sub(part)?)),
        None => Ok(None),
    }
}

/// Puts a term at the end of a row at which it can stand; `Err` where memory was refused.
fn put_term(row: &mut Row, term: Term) -> Result<(), AllocError>
    requires { CanStandAfter row.old.terms term }
    ensures { IfOk result (λ _. row.new ≡ record row.old { terms = row.old.terms ++ term ∷ [] }) }
{
    match row.append(term) {
        Ok(()) => Ok(()),
        Err(AppendFault::NoMemory) => Err(AllocError),
        Err(_) => unreachable!(),
    }
}

/// Makes the terms on continuous columns, by their new numbers, those of a row that has none yet; `Err` where memory
/// was refused.
fn put_terms(
    row: &mut Row,
    terms: &[Term],
    whole: &[bool],
    numbers: &[u32],
) -> Result<(), AllocError>
    requires empty { row.old.terms ≡ [] }
    requires valid { AreTerms terms.now }
    requires stand { StandsBelow (length whole.now) terms.now }
    requires numbers { numbers.now ≡ numbers_from 0 whole.now }
    ensures { IfOk result (λ _. row.new ≡ record row.old { terms = continuous_terms whole.now terms.now }) }
{
    for term in terms {
        let column = term.col as usize;
        if whole[column] {
            continue;
        }
        let moved = Term {
            col: numbers[column],
            coef: term.coef,
        };
        put_term(row, moved)?;
    }
    Ok(())
}

/// What is left of a row at a point that has the values of the leaf, and 0 on continuous columns.
fn left_of_row(
    alloc: Global,
    row: &Row,
    whole: &[bool],
    numbers: &[u32],
    point: &[Frac],
) -> Result<Row, RowFault>
    requires stand { StandsBelow (length whole.now) row.now.terms }
    requires long { length point.now ≡ length whole.now }
    requires numbers { numbers.now ≡ numbers_from 0 whole.now }
    ensures { MatchResult result
        (λ left. left ≡ left_of whole.now point.now row.now)
        (IsRowFault row.now (activity_from zeroℚ row.now.terms point.now)) }
{
    let Ok(part) = row.activity(point) else {
        return Err(RowFault::Wide);
    };
    let Ok(low) = shifted(row.low(), part) else {
        return Err(RowFault::Wide);
    };
    let Ok(high) = shifted(row.high(), part) else {
        return Err(RowFault::Wide);
    };
    let mut left = Row::empty(alloc, low, high);
    put_terms(&mut left, row.terms(), whole, numbers)?;
    Ok(left)
}

/// What is left of each row; `Wide` names the first row of which nothing is left in the range.
pub(crate) fn rows_left(
    alloc: Global,
    rows: &[Row],
    whole: &[bool],
    numbers: &[u32],
    point: &[Frac],
) -> Result<Vec<Row>, RowsFault>
    requires few { length rows.now ≤ most_rows }
    requires stand { All (λ row. StandsBelow (length whole.now) row.terms) rows.now }
    requires long { length point.now ≡ length whole.now }
    requires numbers { numbers.now ≡ numbers_from 0 whole.now }
    ensures { MatchResult result
        (λ left. left.items ≡ map (left_of whole.now point.now) rows.now)
        (IsRowsFault rows.now point.now) }
{
    let mut left = Vec::new(alloc);
    for at in 0..rows.len() {
        let row = match left_of_row(alloc, &rows[at], whole, numbers, point) {
            Ok(row) => row,
            Err(RowFault::Wide) => return Err(RowsFault::Wide(at as u32)),
            Err(RowFault::NoMemory) => return Err(RowsFault::NoMemory),
        };
        if left.push(row).is_err() {
            return Err(RowsFault::NoMemory);
        }
    }
    Ok(left)
}
