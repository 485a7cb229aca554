//! What a basis that is guessed shows of the linear program of a node.
ghost use Rattle.std.specs.Prelude.{◌≡◌, ◌≤◌, ℕ, true, List, map, length, None, IfOk, IfSome};
ghost use Rattle.cip_rational.specs.Rational.{◌+ℚ◌, le_test};
ghost use Rattle.cip_problem.specs.Choices.{greater};
ghost use Rattle.cip_problem.specs.WellFormed.{columns};
ghost use Rattle.cip_problem.specs.Program.{Sides};
ghost use Rattle.cip_problem.specs.LinearProgram.{IsPoint};
ghost use Rattle.cip_cert.specs.Lent.{Lent};
ghost use Rattle.cip_basis.specs.Shown.{IsReady, IsShown, program_of};
ghost use Rattle.cip_relax.specs.NodeRows.{usable_rows};
ghost use Rattle.cip_relax.specs.Relaxing.{node_program, ReachesCost, ShowsBound};
ghost use Rattle.cip_relax.specs.Guessing.{StandsBeside, IsGuessed};

use crate::relaxed::Relaxed;
use crate::rows::UsableRows;
use cip_basis::{
    Basis, Problem, Safe, Shown, Standing, basis_point, point_cost, rounded_point, safe_bound,
    show, show_anew,
};
use cip_cert::Scratch;
use cip_frac::Frac;
use cip_model::{Program, are_costs_whole};
use cip_search::Stand;
use cip_simplex::Start;
use std::alloc::{AllocError, Global};

/// What a basis that is guessed shows of the linear program of a node.
#[derive(Drop)]
pub(crate) enum Guessed {
    /// What it comes to.
    Shown(Relaxed),
    /// What is near its optimum.
    Beside(Beside),
}

/// What is known of a linear program whose optimum isn't shown.
#[derive(Drop)]
pub(crate) struct Beside {
    /// A point of it, if there is one.
    pub(crate) point: Option<Vec<Frac>>,
    /// A bound of it with the constant, if there is one.
    pub(crate) bound: Option<Frac>,
}

/// A number with the constant of a program; none where the sum is out of range.
fn with_constant(program: &Program, cost: Frac) -> Option<Frac>
    ensures { IfSome result (λ bound. bound ≡ program.now.constant +ℚ cost) }
{
    match program.constant().add(cost) {
        Ok(bound) => Some(bound),
        Err(_) => None,
    }
}

/// Whether a number is at most another.
fn is_at_most(a: Frac, b: Frac) -> bool
    ensures { result ≡ le_test a b }
{
    a <= b
}

/// Whether costs are whole, and a bound, rounded up, is at least what a point costs with the constant.
fn reaches_cost(program: &Program, point: &[Frac], bound: Frac) -> bool
    ensures { result ≡ true → ReachesCost program.now point.now bound }
{
    let costs = program.costs();
    if costs.len() != point.len() {
        return false;
    }
    let Some(sum) = point_cost(costs, point) else {
        return false;
    };
    match with_constant(program, sum) {
        Some(cost) => are_costs_whole(program) && is_at_most(cost, bound.rounded_up()),
        None => false,
    }
}

/// A point and a bound, where that is as good as the optimum; else they are near it.
fn weighed(program: &Program, point: Option<Vec<Frac>>, bound: Option<Frac>) -> Guessed
    ensures { (lent : Lent) → (box : List Sides) → (columns : ℕ)
        → IfSome point (λ values. IsPoint (node_program program.now lent box) values.items)
        → IfSome bound (ShowsBound program.now lent box) → IsGuessed program.now lent box columns result }
{
    match (point, bound) {
        (Some(values), Some(least)) => {
            if reaches_cost(program, values.as_slice(), least) {
                Guessed::Shown(Relaxed::Near {
                    point: values,
                    bound: least,
                })
            } else {
                Guessed::Beside(Beside {
                    point: Some(values),
                    bound: Some(least),
                })
            }
        }
        (point, bound) => Guessed::Beside(Beside { point, bound }),
    }
}

/// What is near the optimum, or as good as it by a point that is rounded, which stands beside it where it has none.
fn beside_rounded(
    alloc: Global,
    basis: &Basis,
    program: &Program,
    problem: &Problem<'_>,
    beside: Beside,
) -> Result<Guessed, AllocError>
    requires { IsReady problem.now }
    ensures { (lent : Lent) → (box : List Sides) → (columns : ℕ)
        → program_of problem.entry.now ≡ node_program program.now lent box → StandsBeside program.now lent box beside
        → IfOk result (IsGuessed program.now lent box columns) }
{
    let point = rounded_point(alloc, basis, problem)?;
    match weighed(program, point, beside.bound) {
        Guessed::Beside(other) => {
            if beside.point.is_some() {
                drop(other);
                Ok(Guessed::Beside(beside))
            } else {
                drop(beside);
                Ok(Guessed::Beside(other))
            }
        }
        Guessed::Shown(relaxed) => Ok(Guessed::Shown(relaxed)),
    }
}

/// A bound, if there is one, beside a point by the basis.
fn beside_point(
    alloc: Global,
    basis: &mut Basis,
    program: &Program,
    problem: &Problem<'_>,
    bound: Option<Frac>,
) -> Result<Guessed, AllocError>
    requires { IsReady problem.now }
    ensures { (lent : Lent) → (box : List Sides) → (columns : ℕ)
        → program_of problem.entry.now ≡ node_program program.now lent box
        → IfSome bound (ShowsBound program.now lent box)
        → IfOk result (IsGuessed program.now lent box columns) }
{
    let point = basis_point(alloc, basis, problem)?;
    match weighed(program, point, bound) {
        Guessed::Beside(beside) => beside_rounded(alloc, basis, program, problem, beside),
        Guessed::Shown(relaxed) => Ok(Guessed::Shown(relaxed)),
    }
}

/// What multipliers that are rounded, and a point by the basis, show of the linear program of a node whose optimum
/// isn't shown.
fn by_rounding(
    alloc: Global,
    basis: &mut Basis,
    program: &Program,
    problem: &Problem<'_>,
    scratch: &mut Scratch,
) -> Result<Guessed, AllocError>
    requires ready { IsReady problem.now }
    requires room { length problem.now.bounds.now ≤ length scratch.old.row.entries }
    ensures guessed { (lent : Lent) → (box : List Sides) → (columns : ℕ)
        → program_of problem.entry.now ≡ node_program program.now lent box
        → IfOk result (IsGuessed program.now lent box columns) }
    ensures room { length scratch.new.row.entries ≡ length scratch.old.row.entries }
{
    match safe_bound(alloc, basis, problem, scratch)? {
        Some(safe) => match safe {
            Safe::Bound { cost } => {
                let bound = with_constant(program, cost);
                beside_point(alloc, basis, program, problem, bound)
            }
            Safe::Empty => Ok(Guessed::Shown(Relaxed::Empty)),
        },
        None => beside_point(alloc, basis, program, problem, None),
    }
}

/// What is shown of the linear program of a node: a point of least cost and that cost with the constant, or that there
/// is no point; else what multipliers that are rounded, and a point beside them, show.
fn weighed_or_rounded(
    alloc: Global,
    basis: &mut Basis,
    program: &Program,
    problem: &Problem<'_>,
    shown: Option<Shown>,
    scratch: &mut Scratch,
) -> Result<Guessed, AllocError>
    requires ready { IsReady problem.now }
    requires room { length problem.now.bounds.now ≤ length scratch.old.row.entries }
    requires shown { IfSome shown (IsShown (program_of problem.now)) }
    ensures guessed { (lent : Lent) → (box : List Sides) → (columns : ℕ)
        → program_of problem.entry.now ≡ node_program program.now lent box
        → IfOk result (IsGuessed program.now lent box columns) }
    ensures room { length scratch.new.row.entries ≡ length scratch.old.row.entries }
{
    match shown {
        Some(Shown::Optimal { point, cost, combo }) => match with_constant(program, cost) {
            Some(bound) => Ok(Guessed::Shown(Relaxed::Bound {
                point,
                bound,
                combo,
            })),
            None => by_rounding(alloc, basis, program, problem, scratch),
        },
        Some(Shown::Empty) => Ok(Guessed::Shown(Relaxed::Empty)),
        None => by_rounding(alloc, basis, program, problem, scratch),
    }
}

/// Of two bounds the greater one, as far as they are there.
fn greater_bound(bound: Option<Frac>, other: Option<Frac>) -> Option<Frac>
    ensures greater { result ≡ greater bound other }
    ensures shows { (program : Program) → (lent : Lent) → (box : List Sides)
        → IfSome bound (ShowsBound program lent box) → IfSome other (ShowsBound program lent box)
        → IfSome result (ShowsBound program lent box) }
{
    match (bound, other) {
        (Some(own), Some(more)) => Some(if is_at_most(own, more) { more } else { own }),
        (None, more) => more,
        (own, None) => own,
    }
}

/// What is near the optimum, or what one more guess with less rounding shows, where that may bring a point and a bound
/// together: there are both, costs are whole, and the last guess wasn't such a one.
fn guessed_anew(
    alloc: Global,
    basis: &mut Basis,
    program: &Program,
    problem: &Problem<'_>,
    beside: Beside,
    scratch: &mut Scratch,
) -> Result<Guessed, AllocError>
    requires ready { IsReady problem.now }
    requires room { length problem.now.bounds.now ≤ length scratch.old.row.entries }
    ensures guessed { (lent : Lent) → (box : List Sides) → (columns : ℕ)
        → program_of problem.entry.now ≡ node_program program.now lent box → StandsBeside program.now lent box beside
        → IfOk result (IsGuessed program.now lent box columns) }
    ensures room { length scratch.new.row.entries ≡ length scratch.old.row.entries }
{
    let are_both = beside.point.is_some() && beside.bound.is_some();
    if !are_both || basis.is_anew() || !are_costs_whole(program) {
        return Ok(Guessed::Beside(beside));
    }
    let Ok(shown) = show_anew(alloc, basis, problem, scratch) else {
        drop(beside);
        return Err(AllocError);
    };
    match weighed_or_rounded(alloc, basis, program, problem, shown, scratch) {
        Err(error) => {
            drop(beside);
            Err(error)
        }
        Ok(Guessed::Beside(other)) => {
            let bound = greater_bound(beside.bound, other.bound);
            drop(other);
            Ok(Guessed::Beside(Beside {
                point: beside.point,
                bound,
            }))
        }
        Ok(Guessed::Shown(relaxed)) => {
            drop(beside);
            Ok(Guessed::Shown(relaxed))
        }
    }
}

/// What a basis that is guessed shows of the linear program of a node: a point of least cost and that cost with the
/// constant, or that there is no point; else what multipliers that are rounded, and a point beside them, show. Where
/// these are near each other, but not near enough, it is guessed once more with less rounding.
pub(crate) fn by_guess(
    alloc: Global,
    basis: &mut Basis,
    program: &Program,
    usable: &UsableRows<'_>,
    scratch: &mut Scratch,
) -> Result<Guessed, AllocError>
    requires columns { length usable.now.bounds.now ≡ columns program.now }
    requires pool { length usable.now.bounds.now ≡ usable.now.pool.now.columns }
    requires others { map (λ row. row.now) usable.now.rows.items
        ≡ usable_rows usable.now.bounds.now usable.now.pool.now.rows }
    requires room { length usable.now.bounds.now ≤ length scratch.old.row.entries }
    ensures guessed { IfOk result (IsGuessed program.now
        (record { own = program.now.rows; pool = usable.entry.now.pool.now.rows; cutoff = None })
        usable.entry.now.bounds.now (length scratch.old.row.entries)) }
    ensures room { length scratch.new.row.entries ≡ length scratch.old.row.entries }
{
    let _columns = program.columns();
    let problem = Problem {
        own: program.rows(),
        others: usable.rows.as_slice(),
        ids: usable.ids.as_slice(),
        pool: usable.pool.rows(),
        whole: program.whole(),
        bounds: usable.bounds,
        costs: program.costs(),
    };
    let shown = show(alloc, basis, &problem, scratch)?;
    match weighed_or_rounded(alloc, basis, program, &problem, shown, scratch)? {
        Guessed::Beside(beside) => {
            guessed_anew(alloc, basis, program, &problem, beside, scratch)
        }
        Guessed::Shown(relaxed) => Ok(Guessed::Shown(relaxed)),
    }
}

/// The start at the basis, of so many variables. `Err` where memory was refused.
pub(crate) fn start_at(
    alloc: Global,
    basis: &Basis,
    variables: usize,
) -> Result<Start, AllocError> {
    let mut standing = Vec::with_capacity(alloc, variables)?;
    for number in 0..variables {
        let variable = u32::try_from(number).unwrap_or(u32::MAX);
        let stand = match basis.standing(variable) {
            Standing::Basic => None,
            Standing::Low => Some(Stand::Low),
            Standing::High => Some(Stand::High),
            Standing::Zero => Some(Stand::Zero),
        };
        standing.push(stand)?;
    }
    Ok(Start::new(standing))
}
