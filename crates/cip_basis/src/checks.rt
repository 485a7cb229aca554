//! The checks of what a basis shows.
ghost use Rattle.std.specs.Prelude.{◌≡◌, ◌≤◌, true, length, IfSome};
ghost use Rattle.cip_problem.specs.LinearProgram.{IsPoint, IsOptimal, HasNoPoint, CostsAtLeast};
ghost use Rattle.cip_basis.specs.Shown.{IsReady, program_of};

use crate::problem::Problem;
use crate::tests::cost_at;
use cip_cert::{Rows, Scratch, empties, lower_bound};
use cip_frac::Frac;
use cip_lin::Combo;

/// What a combination bounds the costs by, where it does.
pub(crate) fn safe_cost(problem: &Problem<'_>, combo: &Combo, scratch: &mut Scratch) -> Option<Frac>
    requires ready { IsReady problem.now }
    requires room { length problem.now.bounds.now ≤ length scratch.old.row.entries }
    ensures least { IfSome result (CostsAtLeast (program_of problem.entry.now)) }
    ensures room { length scratch.new.row.entries ≡ length scratch.old.row.entries }
{
    let rows = Rows {
        own: problem.own,
        pool: problem.pool,
        cutoff: &None,
        whole: problem.whole,
    };
    match lower_bound(&rows, problem.bounds, problem.costs, combo, scratch) {
        Ok(bound) => Some(bound),
        Err(_) => None,
    }
}

/// The cost of a point, where a combination bounds the costs by as much.
pub(crate) fn least_cost(
    problem: &Problem<'_>,
    point: &[Frac],
    combo: &Combo,
    scratch: &mut Scratch,
) -> Option<Frac>
    requires ready { IsReady problem.now }
    requires room { length problem.now.bounds.now ≤ length scratch.old.row.entries }
    requires long { length point.now ≡ length problem.now.bounds.now }
    requires point { IsPoint (program_of problem.now) point.now }
    ensures optimal { IfSome result (IsOptimal (program_of problem.entry.now) point.now) }
    ensures room { length scratch.new.row.entries ≡ length scratch.old.row.entries }
{
    let Ok(cost) = cost_at(problem.costs, point) else {
        return None;
    };
    let Some(bound) = safe_cost(problem, combo, scratch) else {
        return None;
    };
    if bound == cost { Some(cost) } else { None }
}

/// Whether a combination empties a linear program.
pub(crate) fn is_emptied(problem: &Problem<'_>, combo: &Combo, scratch: &mut Scratch) -> bool
    requires ready { IsReady problem.now }
    requires room { length problem.now.bounds.now ≤ length scratch.old.row.entries }
    ensures empty { result ≡ true → HasNoPoint (program_of problem.entry.now) }
    ensures room { length scratch.new.row.entries ≡ length scratch.old.row.entries }
{
    let rows = Rows {
        own: problem.own,
        pool: problem.pool,
        cutoff: &None,
        whole: problem.whole,
    };
    match empties(&rows, problem.bounds, combo, scratch) {
        Ok(()) => true,
        Err(_) => false,
    }
}
