//! What is shown of a linear program.
ghost use Rattle.std.specs.Prelude.{◌≡◌, ◌≤◌, length, IfOk, IfSome};
ghost use Rattle.cip_problem.specs.LinearProgram.{IsPoint};
ghost use Rattle.cip_basis.specs.Shown.{IsReady, IsShown, program_of};

use crate::basis::Basis;
use crate::checks::{is_emptied, least_cost};
use crate::near::tested;
use crate::problem::Problem;
use crate::{Length, Outcome};
use cip_cert::Scratch;
use cip_frac::Frac;
use cip_lin::Combo;
use std::alloc::{AllocError, Global};

/// What is shown of a linear program.
#[derive(Drop)]
pub enum Shown {
    /// A point of least cost, that cost, and the combination that bounds the costs by as much.
    Optimal {
        point: Vec<Frac>,
        cost: Frac,
        combo: Combo,
    },
    /// There is no point.
    Empty,
}

/// A point with its cost and a combination, where that bounds the costs by as much.
fn least(
    problem: &Problem<'_>,
    point: Vec<Frac>,
    combo: Combo,
    scratch: &mut Scratch,
) -> Option<Shown>
    requires ready { IsReady problem.now }
    requires room { length problem.now.bounds.now ≤ length scratch.old.row.entries }
    requires long { length point.items ≡ length problem.now.bounds.now }
    requires point { IsPoint (program_of problem.now) point.items }
    ensures shown { IfSome result (IsShown (program_of problem.entry.now)) }
    ensures room { length scratch.new.row.entries ≡ length scratch.old.row.entries }
{
    match least_cost(problem, point.as_slice(), &combo, scratch) {
        Some(cost) => Some(Shown::Optimal { point, cost, combo }),
        None => None,
    }
}

/// The point of a basis, where it is optimal.
fn optimum(
    alloc: Global,
    basis: &mut Basis,
    problem: &Problem<'_>,
    size: Length,
    scratch: &mut Scratch,
) -> Result<Option<Shown>, AllocError>
    requires ready { IsReady problem.now }
    requires room { length problem.now.bounds.now ≤ length scratch.old.row.entries }
    ensures shown { IfOk result (λ found. IfSome found (IsShown (program_of problem.entry.now))) }
    ensures room { length scratch.new.row.entries ≡ length scratch.old.row.entries }
{
    let given = problem.given();
    let Ok(values) = basis.point(alloc, &given, size) else {
        return Err(AllocError);
    };
    let Some(point) = tested(problem, values) else {
        return Ok(None);
    };
    match basis.combo(alloc, &given, Outcome::Optimal, size) {
        Ok(Some(combo)) => Ok(least(problem, point, combo, scratch)),
        Ok(None) => Ok(None),
        Err(_) => Err(AllocError),
    }
}

/// What a basis shows where parts of numbers are at most so long: its point, where it is optimal, or that there is no
/// point, where a basic variable that can't be brought between its sides shows it.
fn shown_by(
    alloc: Global,
    basis: &mut Basis,
    problem: &Problem<'_>,
    outcome: Outcome,
    size: Length,
    scratch: &mut Scratch,
) -> Result<Option<Shown>, AllocError>
    requires ready { IsReady problem.now }
    requires room { length problem.now.bounds.now ≤ length scratch.old.row.entries }
    ensures shown { IfOk result (λ found. IfSome found (IsShown (program_of problem.entry.now))) }
    ensures room { length scratch.new.row.entries ≡ length scratch.old.row.entries }
{
    if outcome == Outcome::Optimal {
        return optimum(alloc, basis, problem, size, scratch);
    }
    match basis.combo(alloc, &problem.given(), outcome, size) {
        Ok(Some(combo)) => {
            if is_emptied(problem, &combo, scratch) {
                Ok(Some(Shown::Empty))
            } else {
                Ok(None)
            }
        }
        Ok(None) => Ok(None),
        Err(_) => Err(AllocError),
    }
}

/// What a basis that is guessed shows, at first with short parts; with `anew` its table is made anew.
fn shown_once(
    alloc: Global,
    basis: &mut Basis,
    problem: &Problem<'_>,
    anew: bool,
    scratch: &mut Scratch,
) -> Result<Option<Shown>, AllocError>
    requires ready { IsReady problem.now }
    requires room { length problem.now.bounds.now ≤ length scratch.old.row.entries }
    ensures shown { IfOk result (λ found. IfSome found (IsShown (program_of problem.entry.now))) }
    ensures room { length scratch.new.row.entries ≡ length scratch.old.row.entries }
{
    let outcome = match basis.ready(alloc, &problem.given(), anew) {
        Ok(Some(outcome)) => outcome,
        Ok(None) => return Ok(None),
        Err(_) => return Err(AllocError),
    };
    match shown_by(alloc, basis, problem, outcome, Length::Short, scratch) {
        Ok(Some(shown)) => Ok(Some(shown)),
        Ok(None) => shown_by(alloc, basis, problem, outcome, Length::Long, scratch),
        Err(_) => Err(AllocError),
    }
}

/// What a basis that is guessed shows of a linear program: a point of least cost and that cost, or that there is no
/// point; none where it shows nothing. It is guessed once more, with less rounding, where the tests refuse what was
/// solved. The basis is kept from program to program, where only the box changes or rows come at the end. A point of
/// the program whose cost is a bound of it, as `lower_bound` checks it, is least. `Err` where memory was refused.
pub fn show(
    alloc: Global,
    basis: &mut Basis,
    problem: &Problem<'_>,
    scratch: &mut Scratch,
) -> Result<Option<Shown>, AllocError>
    requires ready { IsReady problem.now }
    requires room { length problem.now.bounds.now ≤ length scratch.old.row.entries }
    ensures shown { IfOk result (λ found. IfSome found (IsShown (program_of problem.entry.now))) }
    ensures room { length scratch.new.row.entries ≡ length scratch.old.row.entries }
{
    match shown_once(alloc, basis, problem, false, scratch) {
        Ok(Some(shown)) => Ok(Some(shown)),
        Ok(None) if basis.is_in_range => show_anew(alloc, basis, problem, scratch),
        Ok(None) => Ok(None),
        Err(_) => Err(AllocError),
    }
}

/// What a basis that is guessed anew, with less rounding, shows of a linear program: a point of least cost and that
/// cost, or that there is no point; none where it shows nothing. `Err` where memory was refused.
pub fn show_anew(
    alloc: Global,
    basis: &mut Basis,
    problem: &Problem<'_>,
    scratch: &mut Scratch,
) -> Result<Option<Shown>, AllocError>
    requires ready { IsReady problem.now }
    requires room { length problem.now.bounds.now ≤ length scratch.old.row.entries }
    ensures shown { IfOk result (λ found. IfSome found (IsShown (program_of problem.entry.now))) }
    ensures room { length scratch.new.row.entries ≡ length scratch.old.row.entries }
{
    shown_once(alloc, basis, problem, true, scratch)
}
