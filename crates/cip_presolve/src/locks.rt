//! Which columns no row keeps from falling, or from rising.
ghost use Rattle.std.specs.Prelude.{◌≡◌, ◌<◌, All, IfOk, IfSome, length};
ghost use Rattle.std.specs.Bool.{OnTrue};
ghost use Rattle.cip_rational.specs.Rational.{zeroℚ, ◌≤ℚ◌};
ghost use Rattle.cip_problem.specs.Activity.{StandsBelow};
ghost use Rattle.cip_presolve.specs.FreeColumns.{turned, FreeFewer, TermsFree, RowsFree};

use crate::forms::ColumnForm;
use crate::spent::spent_column;
use cip_frac::Frac;
use cip_lin::{Row, Term};
use std::alloc::{AllocError, Global};

/// Whether the sides of a row let the value of a column with this coefficient fall.
#[tactic(auto, using(crate::proofs::Free::one_falls))]
fn let_fall(low: Option<Frac>, high: Option<Frac>, coef: Frac) -> bool
    ensures low { OnTrue result (IfSome low (λ side. coef ≤ℚ zeroℚ)) }
    ensures high { OnTrue result (IfSome high (λ side. zeroℚ ≤ℚ coef)) }
{
    match (low, high) {
        (None, None) => true,
        (Some(_), None) => !coef.is_positive(),
        (None, Some(_)) => !coef.is_negative(),
        (Some(_), Some(_)) => coef.is_zero(),
    }
}

/// A coefficient, with the other sign where it is looked at from the other side.
pub(crate) fn turned(rising: bool, coef: Frac) -> Frac
    ensures { result ≡ turned rising coef }
{
    if rising { coef.neg() } else { coef }
}

/// The columns that these terms of a row keep from falling, or from rising, are free no more.
#[tactic(auto, using(crate::proofs::Free::locked_terms))]
fn lock_terms(
    free: &mut Vec<bool>,
    terms: &[Term],
    low: &Option<Frac>,
    high: &Option<Frac>,
    rising: bool,
)
    requires { StandsBelow (length free.old.items) terms.now }
    ensures fewer { FreeFewer free.old.items free.new.items }
    ensures terms { TermsFree rising free.new.items low.now high.now terms.now }
{
    for term in terms {
        let coef = turned(rising, term.coef);
        if let_fall(*low, *high, coef) {
            continue;
        }
        free[term.col as usize] = false;
    }
}

/// Which of so many columns no row keeps from falling, or from rising, but for rows that give a column that is left out
/// its form; `Err` where the memory for it was refused.
#[tactic(auto, using(crate::proofs::Free::locked_rows))]
pub(crate) fn free_columns(
    alloc: Global,
    rows: &[Row],
    forms: &[Option<ColumnForm>],
    columns: usize,
    rising: bool,
) -> Result<Vec<bool>, AllocError>
    requires { All (λ row. StandsBelow columns row.terms) rows.now }
    ensures { IfOk result (λ free. RowsFree rising free.items forms.now rows.now) }
{
    let mut free = vec![in alloc; true; columns]?;
    for row in rows {
        if spent_column(forms, row).is_some() {
            continue;
        }
        lock_terms(&mut free, row.terms(), &row.low(), &row.high(), rising);
    }
    Ok(free)
}
