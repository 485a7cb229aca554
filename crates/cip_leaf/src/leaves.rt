//! The least cost of a leaf.
ghost use Rattle.std.specs.Prelude.{◌≡◌, ◌≤◌, [], length, All, IfOk, MatchResult};
ghost use Rattle.cip_problem.specs.Activity.{StandsBelow};
ghost use Rattle.cip_problem.specs.Limits.{most_rows};
ghost use Rattle.cip_problem.specs.WellFormed.{IsWellFormed};
ghost use Rattle.cip_bland.specs.NoRepeat.{whole_answer};
ghost use Rattle.cip_simplex.specs.LpAnswers.{IsAnswer};
ghost use Rattle.cip_simplex.specs.LpShape.{IsSolvable};
ghost use Rattle.cip_search.specs.Leaf.{IsLeaf, IsLeafOf};
ghost use Rattle.cip_search.specs.LeafProgram as program_spec;
ghost use Rattle.cip_search.specs.LeafProgram.{program_of_leaf};
ghost use Rattle.cip_leaf.specs.Building.{IsRowsFault};
ghost use Rattle.cip_leaf.specs.LeafAnswers.{IsLeafAnswer, IsValuesAnswer, IsWideAnswer};
ghost use Rattle.cip_leaf.specs.LeafAnswers.{EndsInOptimum, EndsInRay, EndsOutOfRange};
ghost use Rattle.cip_leaf.specs.LeafAnswers.{IsFirstAlong};
ghost use Rattle.cip_leaf.specs.Parts.{IsProgramOf};

use crate::answers::{LeafAnswer, Shown};
use crate::by_basis::shown_by_basis;
use crate::decided::Decided;
use crate::few_moves::shown_by_few;
use crate::first_values::first_wide;
use crate::lists::{continuous_costs, merged, new_numbers};
use crate::rows::{RowsFault, rows_left};
use crate::whole_leaves::{are_all_whole, tested};
use cip_frac::Frac;
use cip_lin::{Bounds, Row};
use cip_model::{Place, Program, Verdict};
use cip_simplex::{Lp, LpAnswer, Solver, solve_fully};
use std::alloc::{AllocError, Global};

/// The lists of a leaf's program.
#[derive(Drop)]
pub(crate) struct Parts {
    pub(crate) rows: Vec<Row>,
    pub(crate) bounds: Bounds,
    pub(crate) costs: Vec<Frac>,
}

/// The rows of the program of a leaf; `Wide` names the first row whose fixed part overflows, or what a side leaves of
/// it.
fn rows_of_leaf(alloc: Global, program: &Decided, leaf: &[Frac]) -> Result<Vec<Row>, RowsFault>
    ensures { MatchResult result
        (λ rows. rows.items ≡ (program_spec.program_of_leaf program.now leaf.now).rows)
        (IsRowsFault program.now.rows (program_spec.merged program.now.integral leaf.now [])) }
{
    let whole = program.whole();
    let Ok(point) = merged(alloc, whole, leaf, &[]) else {
        return Err(RowsFault::NoMemory);
    };
    let Ok(numbers) = new_numbers(alloc, whole) else {
        return Err(RowsFault::NoMemory);
    };
    rows_left(
        alloc,
        program.rows(),
        whole,
        numbers.as_slice(),
        point.as_slice(),
    )
}

/// The lists of the program of a leaf; `Wide` names the first row whose fixed part overflows, or what a side leaves of
/// it.
fn parts_of_leaf(alloc: Global, program: &Decided, leaf: &[Frac]) -> Result<Parts, RowsFault>
    ensures { MatchResult result
        (IsProgramOf program.now leaf.now)
        (IsRowsFault program.now.rows (program_spec.merged program.now.integral leaf.now [])) }
{
    let rows = rows_of_leaf(alloc, program, leaf)?;
    let Ok(bounds) = program.continuous_sides(alloc) else {
        return Err(RowsFault::NoMemory);
    };
    let Ok(costs) = continuous_costs(alloc, program.whole(), program.costs()) else {
        return Err(RowsFault::NoMemory);
    };
    Ok(Parts {
        rows,
        bounds,
        costs,
    })
}

/// The answer where the leaf's program ends in an optimum with these values; `Err` where memory was refused.
fn optimum(
    alloc: Global,
    program: &Decided,
    leaf: &[Frac],
    others: &[Frac],
) -> Result<LeafAnswer, AllocError>
    requires leaf { IsLeaf program.now leaf.now }
    requires end { EndsInOptimum program.now leaf.now others.now }
    ensures { IfOk result (IsValuesAnswer program.now leaf.now) }
{
    let point = merged(alloc, program.whole(), leaf, others)?;
    match program.check(point.as_slice()) {
        Verdict::Feasible(cost) => Ok(LeafAnswer::Best { point, cost }),
        Verdict::Wide { place } => Ok(LeafAnswer::Wide {
            shown: Shown::Place(place),
        }),
        _ => unreachable!(),
    }
}

/// The first row whose sum along a ray overflows; the cost where none does.
fn first_along(rows: &[Row], ray: &[Frac]) -> Place
    requires few { length rows.now ≤ most_rows }
    requires stand { All (λ row. StandsBelow (length ray.now) row.terms) rows.now }
    ensures { IsFirstAlong rows.now ray.now result }
{
    for at in 0..rows.len() {
        if rows[at].activity(ray).is_err() {
            return Place::Row(at as u32);
        }
    }
    Place::Cost
}

/// The answer where the leaf's program ends in a ray from these values; `Err` where memory was refused.
fn endless(
    alloc: Global,
    program: &Decided,
    leaf: &[Frac],
    others: &[Frac],
    direction: &[Frac],
) -> Result<LeafAnswer, AllocError>
    requires leaf { IsLeaf program.now leaf.now }
    requires end { EndsInRay program.now leaf.now others.now direction.now }
    ensures { IfOk result (IsValuesAnswer program.now leaf.now) }
{
    let point = merged(alloc, program.whole(), leaf, others)?;
    let ray = merged(alloc, program.whole(), &[], direction)?;
    if let Verdict::Wide { place } = program.check(point.as_slice()) {
        return Ok(LeafAnswer::Wide {
            shown: Shown::Place(place),
        });
    }
    if program.check_ray(point.as_slice(), ray.as_slice()) {
        return Ok(LeafAnswer::Unbounded { point, ray });
    }
    Ok(LeafAnswer::Wide {
        shown: Shown::Place(first_along(program.rows(), ray.as_slice())),
    })
}

/// The answer where the leaf's program ends out of range after so many moves; `Err` where memory was refused.
fn out_of_range(alloc: Global, parts: &Parts, moves: usize) -> Result<LeafAnswer, AllocError>
    requires solvable { IsSolvable (record {
      rows = parts.now.rows.items;
      bounds = parts.now.bounds;
      costs = parts.now.costs.items;
    }) }
    requires end { EndsOutOfRange (record {
      rows = parts.now.rows.items;
      bounds = parts.now.bounds;
      costs = parts.now.costs.items;
    }) moves }
    ensures { IfOk result (IsWideAnswer (record {
      rows = parts.now.rows.items;
      bounds = parts.now.bounds;
      costs = parts.now.costs.items;
    })) }
{
    if moves > 0 {
        return Ok(LeafAnswer::Wide {
            shown: Shown::Moves(moves as u64),
        });
    }
    let place = first_wide(
        alloc,
        parts.rows.as_slice(),
        &parts.bounds,
        parts.costs.as_slice(),
    )?;
    Ok(LeafAnswer::Wide {
        shown: Shown::Place(place),
    })
}

/// The answer on a leaf with this program, by how Bland's list ends. `Err` where memory was refused.
fn answer_at(
    alloc: Global,
    program: &Decided,
    wholes: &[Frac],
    parts: &Parts,
    end: LpAnswer,
) -> Result<LeafAnswer, AllocError>
    requires leaf { IsLeaf program.now wholes.now }
    requires formed { IsWellFormed program.now }
    requires parts { IsProgramOf program.now wholes.now parts.now }
    requires end { IsAnswer (whole_answer (program_of_leaf program.now wholes.now)) end }
    ensures { IfOk result (IsValuesAnswer program.now wholes.now) }
{
    match end {
        LpAnswer::Optimal { point, combo, .. } => {
            drop(combo);
            optimum(alloc, program, wholes, point.as_slice())
        }
        LpAnswer::Infeasible { combo } => {
            drop(combo);
            Ok(LeafAnswer::NoPoint)
        }
        LpAnswer::Unbounded { point, ray } => {
            endless(alloc, program, wholes, point.as_slice(), ray.as_slice())
        }
        LpAnswer::Wide { moves } => out_of_range(alloc, parts, moves.len()),
        LpAnswer::Limit => unreachable!(),
    }
}

/// The answer on a leaf with this program: what few moves show of it, and else how Bland's list ends. `Err` where
/// memory was refused.
fn answer_by_moves(
    alloc: Global,
    solver: &mut Solver,
    program: &Decided,
    wholes: &[Frac],
    parts: &Parts,
) -> Result<LeafAnswer, AllocError>
    requires leaf { IsLeaf program.now wholes.now }
    requires formed { IsWellFormed program.now }
    requires parts { IsProgramOf program.now wholes.now parts.now }
    ensures { IfOk result (IsValuesAnswer program.now wholes.now) }
{
    let lp = Lp::new(parts.rows.as_slice(), &parts.bounds, parts.costs.as_slice());
    match shown_by_few(alloc, solver, program, wholes, &lp)? {
        Some(found) => Ok(found),
        None => match solve_fully(alloc, solver, &lp) {
            Ok(end) => answer_at(alloc, program, wholes, parts, end),
            Err(error) => Err(error),
        },
    }
}

/// The answer on a leaf with this program: what a basis that is guessed shows of it, else what few moves do, and else
/// how Bland's list ends. `Err` where memory was refused.
fn answer_on(
    alloc: Global,
    program: &Decided,
    wholes: &[Frac],
    parts: &Parts,
) -> Result<LeafAnswer, AllocError>
    requires leaf { IsLeaf program.now wholes.now }
    requires formed { IsWellFormed program.now }
    requires parts { IsProgramOf program.now wholes.now parts.now }
    ensures { IfOk result (IsValuesAnswer program.now wholes.now) }
{
    match shown_by_basis(alloc, program, wholes, parts)? {
        Some(found) => Ok(found),
        None => {
            let mut solver = Solver::new(alloc);
            let answer = answer_by_moves(alloc, &mut solver, program, wholes, parts);
            drop(solver);
            answer
        }
    }
}

/// What is known of values, which are a leaf of a program in which the choices are made. Where no column is continuous,
/// the test of its one point says it, and no program is made of it. `Err` where memory was refused.
fn values_answer(
    alloc: Global,
    program: &Decided,
    wholes: &[Frac],
) -> Result<LeafAnswer, AllocError>
    requires { IsLeaf program.now wholes.now }
    ensures { IfOk result (IsValuesAnswer program.now wholes.now) }
{
    let _columns = program.columns();
    if are_all_whole(program.whole()) {
        return tested(alloc, program, wholes);
    }
    match parts_of_leaf(alloc, program, wholes) {
        Ok(parts) => {
            let answer = answer_on(alloc, program, wholes, &parts);
            drop(parts);
            answer
        }
        Err(RowsFault::Wide(number)) => Ok(LeafAnswer::Wide {
            shown: Shown::Place(Place::Row(number)),
        }),
        Err(RowsFault::NoMemory) => Err(AllocError),
    }
}

/// What is known of a leaf of a program, given by its values, which are whole and lie within the bounds, one for each
/// whole column by rising column, and by whether each semi-continuous column is on, by rising column: a point of least
/// cost, that there is none, that the cost falls without end, or that the leaf is wide. `NoPoint` comes exactly where
/// the leaf has no point and the answer isn't `Wide`; `Wide` comes only where the leaf is wide by what is shown. A
/// semi-continuous column lies between its own sides where it is on, and is 0 where it is off. `Err` where memory was
/// refused.
pub fn leaf(
    alloc: Global,
    program: &Program,
    wholes: &[Frac],
    on: &[bool],
) -> Result<LeafAnswer, AllocError>
    requires { IsLeafOf program.now (record { values = wholes.now; on = on.now }) }
    ensures { IfOk result (IsLeafAnswer program.now (record { values = wholes.now; on = on.now })) }
{
    let _columns = program.columns();
    let decided = Decided::new(program, on);
    values_answer(alloc, &decided, wholes)
}
