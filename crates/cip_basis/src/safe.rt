//! What rounded multipliers show of a linear program, whether or not what its basis shows is in range.
ghost use Rattle.std.specs.Prelude.{◌≡◌, ◌≤◌, length, IfOk, IfSome};
ghost use Rattle.cip_basis.specs.Shown.{IsReady, IsSafe, program_of};

use crate::Outcome;
use crate::basis::Basis;
use crate::checks::{is_emptied, safe_cost};
use crate::problem::Problem;
use crate::rounded::rounded_combo;
use cip_cert::Scratch;
use cip_frac::Frac;
use cip_lin::Combo;
use std::alloc::{AllocError, Global};

/// What rounded multipliers show of a linear program.
#[derive(Drop)]
pub enum Safe {
    /// No point costs less.
    Bound { cost: Frac },
    /// There is no point.
    Empty,
}

/// What a combination shows of a linear program whose guess has ended so, if anything.
fn shown_by(
    problem: &Problem<'_>,
    outcome: Outcome,
    combo: &Combo,
    scratch: &mut Scratch,
) -> Option<Safe>
    requires ready { IsReady problem.now }
    requires room { length problem.now.bounds.now ≤ length scratch.old.row.entries }
    ensures safe { IfSome result (IsSafe (program_of problem.entry.now)) }
    ensures room { length scratch.new.row.entries ≡ length scratch.old.row.entries }
{
    if outcome == Outcome::Optimal {
        match safe_cost(problem, combo, scratch) {
            Some(cost) => Some(Safe::Bound { cost }),
            None => None,
        }
    } else if is_emptied(problem, combo, scratch) {
        Some(Safe::Empty)
    } else {
        None
    }
}

/// What the multipliers of the basis that was guessed last show of the same linear program, rounded to multiples of
/// 2^-20 and mended: a bound of its costs, near its least one where the basis is good, or that there is no point; none
/// where they show nothing. It is believed by `lower_bound` or `empties` alone. `Err` where memory was refused.
pub fn safe_bound(
    alloc: Global,
    basis: &Basis,
    problem: &Problem<'_>,
    scratch: &mut Scratch,
) -> Result<Option<Safe>, AllocError>
    requires ready { IsReady problem.now }
    requires room { length problem.now.bounds.now ≤ length scratch.old.row.entries }
    ensures safe { IfOk result (λ found. IfSome found (IsSafe (program_of problem.entry.now))) }
    ensures room { length scratch.new.row.entries ≡ length scratch.old.row.entries }
{
    let Some(outcome) = basis.outcome else {
        return Ok(None);
    };
    let Some(combo) = rounded_combo(alloc, &basis.guess, &problem.given(), outcome)? else {
        return Ok(None);
    };
    let safe = shown_by(problem, outcome, &combo, scratch);
    drop(combo);
    Ok(safe)
}
